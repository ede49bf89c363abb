ghost use Rattle.std.specs.Prelude.{◌≡◌};
ghost use Rattle.listing.specs.Texts.{number_text};

use dna_items::BIG;
use itoa::Buffer;

/// A number in decimal, without leading zeros; from `BIG` on it is the word `big`.
pub fn number(n: u64, buffer: &mut Buffer) -> &[u8]
    ensures { result.now ≡ number_text n }
{
    if n < BIG {
        buffer.format(n).as_bytes()
    } else {
        b"big"
    }
}
