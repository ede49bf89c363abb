//! Signs: words that are always written alike.
ghost use Rattle.std.specs.Prelude.{◌≡◌, ◌<◌, ◌≤◌, length, IfOk};
ghost use Rattle.source_text.specs.Reading.{behind, behind_one, is_sign, seen_rest, stands};

use source_tokens::{Token, Word};

/// A sign that a form asks for.
#[derive(Clone, Copy)]
pub(crate) enum Sign {
    Arrow,
    Equals,
    Colon,
    Semicolon,
    Comma,
    Plus,
    Star,
    Bar,
    OpenBracket,
    CloseBracket,
    OpenBrace,
    CloseBrace,
    Greater,
}

/// Whether a word is a sign.
pub(crate) fn is_sign(sign: Sign, word: Word) -> bool
    ensures { result ≡ is_sign sign word }
{
    match sign {
        Sign::Arrow => matches!(word, Word::Arrow),
        Sign::Equals => matches!(word, Word::Equals),
        Sign::Colon => matches!(word, Word::Colon),
        Sign::Semicolon => matches!(word, Word::Semicolon),
        Sign::Comma => matches!(word, Word::Comma),
        Sign::Plus => matches!(word, Word::Plus),
        Sign::Star => matches!(word, Word::Star),
        Sign::Bar => matches!(word, Word::Bar),
        Sign::OpenBracket => matches!(word, Word::OpenBracket),
        Sign::CloseBracket => matches!(word, Word::CloseBracket),
        Sign::OpenBrace => matches!(word, Word::OpenBrace),
        Sign::CloseBrace => matches!(word, Word::CloseBrace),
        Sign::Greater => matches!(word, Word::Greater),
    }
}

/// Reads a sign: `Err` tells how many tokens are left where the reading stops.
#[tactic(auto, unfolding(crate::specs::Reading::behind))]
pub(crate) fn behind(sign: Sign, tokens: &[Token]) -> Result<&[Token], usize>
    ensures value { seen_rest result ≡ behind sign tokens.now }
    ensures within { IfOk result (λ rest. length rest.now < length tokens.now) }
{
    let Some((first, rest)) = tokens.split_first() else {
        return Err(0);
    };
    if is_sign(sign, first.word) {
        Ok(rest)
    } else {
        Err(rest.len() + 1)
    }
}

/// Whether a sign stands at the front.
pub(crate) fn stands(sign: Sign, tokens: &[Token]) -> bool
    ensures { result ≡ stands sign tokens.now }
{
    match tokens.first() {
        Some(first) => is_sign(sign, first.word),
        None => false,
    }
}

/// What stands behind the first token.
pub(crate) fn tail(tokens: &[Token]) -> &[Token]
    ensures value { result.now ≡ behind_one tokens.now }
    ensures within { length result.now ≤ length tokens.now }
{
    match tokens.split_first() {
        Some((_, rest)) => rest,
        None => tokens,
    }
}
