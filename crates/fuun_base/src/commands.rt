ghost use Rattle.std.specs.Prelude.{◌≡◌, ◌+◌, ◌<◌, ◌≤◌, ◌++◌, length, drop, map, MatchOption};
ghost use Rattle.fuun_base.specs.Letter.{letter_of};

use crate::Base;
use std::marker::Model;

/// A command of RNA: a list of 0 to 7 bases.
#[derive(Clone, Copy, Debug, PartialEq, Eq)]
pub struct Command {
    bases: [Base; 7],
    len: usize,
}

impl Model for Command {
    ghost use Rattle.std.specs.Prelude.{List};
    ghost use Rattle.fuun_base.specs.declared.letters.Base.{Base};

    ghost Value = { List Base };

    ghost use Rattle.fuun_base.specs.Command.{used, IsPadded, padded};
    ghost use Rattle.fuun_base.specs.Padding.{padded_used};

    ghost view = { used };

    ghost invariant = { IsPadded };

    ghost inverse = { padded };

    ghost inverse_ok = { padded_used };
}

impl Command {
    /// The command of these bases: None exactly where there are more than 7.
    pub fn from_bases(bases: &[Base]) -> Option<Command>
        ensures { MatchOption result (7 < length bases.now)
            (λ command. (command ≡ bases.now) × (length bases.now ≤ 7)) }
    {
        if bases.len() > 7 {
            return None;
        }
        let mut places = [Base::I; 7];
        places[..bases.len()].copy_from_slice(bases);
        Some(Command {
            bases: places,
            len: bases.len(),
        })
    }

    /// How many bases it has, at most 7.
    pub fn len(&self) -> usize
        ensures length { result ≡ length self.now }
        ensures most { result ≤ 7 }
    {
        self.len
    }

    /// Writes the letters of its bases to the front of `out`, and answers their number.
    pub fn letters(&self, out: &mut [u8; 7]) -> usize
        ensures number { result ≡ length self.now }
        ensures most { result ≤ 7 }
        ensures written { out.new ≡ map letter_of self.now ++ drop result out.old }
    {
        let used = &self.bases[..self.len];
        for (index, base) in used.iter().enumerate() {
            out[index] = base.letter();
        }
        used.len()
    }
}
