//! Tokens that do not serve, and numbers as they are written.
ghost use Rattle.std.specs.Prelude.{◌≡◌, ◌<◌, length, IfOk};
ghost use Rattle.source_text.specs.Reading.{bad_name, both_faults, earlier, no_faults, number, number_faults, seen};

use dna_items::BIG;
use source_tokens::{Token, Word};

/// The first places of tokens that do not serve, with how many bytes of the source stand before each.
#[derive(Clone, Copy)]
pub(crate) struct Faults {
    /// The first name that does not serve.
    pub(crate) name: Option<u64>,
    /// The first number that is 2^63 or more.
    pub(crate) number: Option<u64>,
}

impl Faults {
    pub(crate) fn none() -> Faults
        ensures { result ≡ no_faults }
    {
        Faults {
            name: None,
            number: None,
        }
    }

    pub(crate) fn name(at: u64) -> Faults
        ensures { result ≡ bad_name at }
    {
        Faults {
            name: Some(at),
            number: None,
        }
    }

    pub(crate) fn number(n: u64, at: u64) -> Faults
        ensures { result ≡ number_faults n at }
    {
        Faults {
            name: None,
            number: if n < BIG { None } else { Some(at) },
        }
    }

    pub(crate) fn and(self, other: Faults) -> Faults
        ensures { result ≡ both_faults self other }
    {
        Faults {
            name: earlier(self.name, other.name),
            number: earlier(self.number, other.number),
        }
    }
}

fn earlier(a: Option<u64>, b: Option<u64>) -> Option<u64>
    ensures { result ≡ earlier a b }
{
    match (a, b) {
        (None, _) => b,
        (Some(_), None) => a,
        (Some(n), Some(m)) => Some(n.min(m)),
    }
}

/// A number as it is written.
#[derive(Clone, Copy)]
pub(crate) struct Counted {
    /// Held at 2^63.
    pub(crate) number: u64,
    pub(crate) faults: Faults,
}

/// Reads a number: `Err` tells how many tokens are left where the reading stops.
#[tactic(auto, unfolding(crate::specs::Reading::number))]
pub(crate) fn number(tokens: &[Token]) -> Result<(Counted, &[Token]), usize>
    ensures value { seen result ≡ number tokens.now }
    ensures within { IfOk result (λ read. length read.1.now < length tokens.now) }
{
    let Some((first, rest)) = tokens.split_first() else {
        return Err(0);
    };
    match first.word {
        Word::Number(n) => Ok((
            Counted {
                number: n,
                faults: Faults::number(n, first.at),
            },
            rest,
        )),
        _ => Err(rest.len() + 1),
    }
}
