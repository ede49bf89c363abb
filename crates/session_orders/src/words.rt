//! The words of a line.
ghost use Rattle.std.specs.Prelude.{◌≡◌, ◌==◌, ◌∷◌, [], ◌≤◌, MatchOption, length, position, unwrap_or};
ghost use Rattle.fuun_base.specs.Letter.{is_blank};
ghost use Rattle.session_orders.specs.Words.{before_comment, is_no_blank, words};

/// What stands before the first `#`.
pub(crate) fn before_comment(line: &[u8]) -> &[u8]
    ensures { result.now ≡ before_comment line.now }
{
    &line[..comment_start(line).unwrap_or(line.len())]
}

// Where the first `#` stands.
fn comment_start(line: &[u8]) -> Option<usize>
    ensures { result ≡ position (λ byte. byte == 35) line.now }
{
    line.iter().position(|byte| *byte == b'#')
}

/// The first word of a text, and what stands behind it: None where there is no word.
pub(crate) fn first_word(text: &[u8]) -> Option<(&[u8], &[u8])>
    ensures { MatchOption result (words text.now ≡ []) (λ cut. words text.now ≡ cut.0.now ∷ words cut.1.now) }
{
    let start = word_start(text)?;
    let text = &text[start..];
    Some(text.split_at(word_len(text)))
}

// Where the first byte that is no blank stands.
fn word_start(text: &[u8]) -> Option<usize>
    ensures { result ≡ position is_no_blank text.now }
{
    text.iter().position(|byte| !is_blank(*byte))
}

// How many bytes stand before the first blank.
fn word_len(text: &[u8]) -> usize
    ensures value { result ≡ unwrap_or (position is_blank text.now) (length text.now) }
    ensures within { result ≤ length text.now }
{
    word_end(text).unwrap_or(text.len())
}

// Where the first blank stands.
fn word_end(text: &[u8]) -> Option<usize>
    ensures { result ≡ position is_blank text.now }
{
    text.iter().position(|byte| is_blank(*byte))
}

fn is_blank(byte: u8) -> bool
    ensures { result ≡ is_blank byte }
{
    byte == b' ' || byte == b'\t' || byte == b'\r'
}
