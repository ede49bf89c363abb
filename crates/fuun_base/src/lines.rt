//! The lines of a file.
ghost use Rattle.std.specs.Prelude.{◌≡◌, ◌+◌, ◌<◌, ◌≤◌, ◌==◌, None, ◌∷◌, drop, length, position, unwrap_or};
ghost use Rattle.fuun_base.specs.Lines.{lines};

/// The first line of a file, without the line feed that ends it, and what stands behind both. Bytes after the last line feed
/// are a line too.
pub fn first_line(bytes: &[u8]) -> (&[u8], &[u8])
    requires { 0 < length bytes.now }
    ensures lines { lines bytes.now ≡ result.0.now ∷ lines result.1.now }
    ensures no_feed { position (λ byte. byte == 10) result.0.now ≡ None }
    ensures rest { result.1.now ≡ drop (length result.0.now + 1) bytes.now }
    ensures within { length result.0.now ≤ length bytes.now }
    ensures shorter { length result.1.now < length bytes.now }
{
    let len = line_len(bytes);
    (&bytes[..len], after_line(bytes, len))
}

// How many bytes the first line has.
fn line_len(bytes: &[u8]) -> usize
    ensures value { result ≡ unwrap_or (position (λ byte. byte == 10) bytes.now) (length bytes.now) }
    ensures within { result ≤ length bytes.now }
{
    line_feed(bytes).unwrap_or(bytes.len())
}

// Where the first line feed stands.
fn line_feed(bytes: &[u8]) -> Option<usize>
    ensures { result ≡ position (λ byte. byte == 10) bytes.now }
{
    bytes.iter().position(|byte| *byte == b'\n')
}

// What stands behind a first line of this length.
fn after_line(bytes: &[u8], len: usize) -> &[u8]
    requires { len ≤ length bytes.now }
    ensures { result.now ≡ drop (len + 1) bytes.now }
{
    &bytes[bytes.len().min(len + 1)..]
}
