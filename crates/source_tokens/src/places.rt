//! Lines and columns.
ghost use Rattle.std.specs.Prelude.{◌≡◌, ◌^◌, ◌≤◌, ◌<◌, length};
ghost use Rattle.source_tokens.specs.Places.{behind, place_of};

/// A place of a text, as a person counts.
#[derive(Clone, Copy, Debug, PartialEq, Eq)]
pub struct Place {
    /// The line, counted from 1.
    pub line: u64,
    /// The byte of the line, counted from 1.
    pub column: u64,
}

/// The line and the column behind so many bytes of a text.
pub fn place_of(bytes: &[u8], at: usize) -> Place
    requires { at ≤ length bytes.now }
    ensures { result ≡ place_of bytes.now at }
{
    let mut place = Place { line: 1, column: 1 };
    'bytes: for byte in &bytes[..at] {
        place = behind(place, *byte);
    }
    place
}

fn behind(place: Place, byte: u8) -> Place
    requires line { place.line < 2 ^ 63 }
    requires column { place.column < 2 ^ 63 }
    ensures { result ≡ behind place byte }
{
    if byte == b'\n' {
        Place {
            line: place.line + 1,
            column: 1,
        }
    } else {
        Place {
            line: place.line,
            column: place.column + 1,
        }
    }
}
