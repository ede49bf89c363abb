ghost use Rattle.std.specs.Prelude.{◌<◌, ◌≤◌, ◌+◌, length};

use cell_rope::CellRope;
use fuun_base::{Base, NoMemory};
use std::alloc::Global;
use sym_strand::Cell;

/// How many places one word tells of.
const WORD: usize = 64;

/// Up to 64 cells or bases as bits, the first of them lowest: which of them are known, and the two bits of each known base.
/// They compare 64 at once, and only hint: whoever asks looks at the place that they name.
#[derive(Clone, Copy, Drop)]
pub(crate) struct Planes {
    known: u64,
    low: u64,
    high: u64,
}

impl Planes {
    const NONE: Planes = Planes {
        known: 0,
        low: 0,
        high: 0,
    };

    /// So many cells from a place on.
    pub(crate) fn of_cells(dna: &CellRope, place: u64, count: u64) -> Planes
        requires some { count ≤ 64 }
        requires within { place + count ≤ length dna.now }
    {
        let _len = dna.len();
        let mut planes = Planes::NONE;
        for at in 0..count {
            if let Some(Cell::Known(base)) = dna.cell(place + at) {
                planes = planes.with(at as u32, base);
            }
        }
        planes
    }

    /// All bases of a list, 64 to a word.
    pub(crate) fn of_bases(alloc: Global, bases: &[Base]) -> Result<Vec<Planes>, NoMemory> {
        let mut words = Vec::new(alloc);
        let mut planes = Planes::NONE;
        for (at, base) in bases.iter().enumerate() {
            planes = planes.with((at % WORD) as u32, *base);
            if at % WORD == WORD - 1 {
                words.push(planes)?;
                planes = Planes::NONE;
            }
        }
        words.push(planes)?;
        Ok(words)
    }

    fn with(self, at: u32, base: Base) -> Planes
        requires { at < 64 }
    {
        let bit = 1u64 << at;
        let (low, high) = match base {
            Base::I => (0, 0),
            Base::C => (bit, 0),
            Base::F => (0, bit),
            Base::P => (bit, bit),
        };
        Planes {
            known: self.known | bit,
            low: self.low | low,
            high: self.high | high,
        }
    }

    /// The places from one on.
    pub(crate) fn from(self, at: u32) -> Planes
        requires { at < 64 }
    {
        Planes {
            known: self.known >> at,
            low: self.low >> at,
            high: self.high >> at,
        }
    }

    /// The places before `64 - at`, moved behind so many.
    fn behind(self, at: u32) -> Planes
        requires { at < 64 }
    {
        Planes {
            known: self.known << at,
            low: self.low << at,
            high: self.high << at,
        }
    }

    fn or(self, other: Planes) -> Planes {
        Planes {
            known: self.known | other.known,
            low: self.low | other.low,
            high: self.high | other.high,
        }
    }

    /// The 64 bases from a place on.
    pub(crate) fn window(words: &[Planes], from: usize) -> Planes {
        let first = word_at(words, from / WORD);
        let past = (from % WORD) as u32;
        if past == 0 {
            first
        } else {
            let next = word_at(words, from / WORD + 1);
            first.from(past).or(next.behind(64 - past))
        }
    }

    /// The first place at which two known bases differ.
    pub(crate) fn first_other(self, other: Planes) -> Option<u32> {
        let differ = (self.low ^ other.low) | (self.high ^ other.high);
        let found = self.known & other.known & differ;
        if found == 0 {
            None
        } else {
            Some(found.trailing_zeros())
        }
    }
}

fn word_at(words: &[Planes], at: usize) -> Planes {
    match words.get(at) {
        Some(planes) => *planes,
        None => Planes::NONE,
    }
}
