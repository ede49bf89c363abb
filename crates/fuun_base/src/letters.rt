ghost use Rattle.std.specs.Prelude.{◌≡◌};
ghost use Rattle.fuun_base.specs.Letter.{letter_of, base_of, is_blank};

/// One base of DNA.
#[derive(Clone, Copy, Debug, PartialEq, Eq)]
pub enum Base {
    I,
    C,
    F,
    P,
}

impl Base {
    /// The base that an upper-case letter stands for: None exactly for a byte that is none of the four letters.
    pub fn from_letter(letter: u8) -> Option<Base>
        ensures { result ≡ base_of letter }
    {
        match letter {
            b'I' => Some(Base::I),
            b'C' => Some(Base::C),
            b'F' => Some(Base::F),
            b'P' => Some(Base::P),
            _ => None,
        }
    }

    /// The upper-case letter of a base, as an ASCII byte.
    pub fn letter(self) -> u8
        ensures { result ≡ letter_of self }
    {
        match self {
            Base::I => b'I',
            Base::C => b'C',
            Base::F => b'F',
            Base::P => b'P',
        }
    }
}

/// Whether a byte is a space, a tab or a carriage return.
pub(crate) fn is_blank(byte: u8) -> bool
    ensures { result ≡ is_blank byte }
{
    byte == b' ' || byte == b'\t' || byte == b'\r'
}
