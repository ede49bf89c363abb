ghost use Rattle.std.specs.Prelude.{◌≡◌, ◌+◌, ◌<◌, ◌≤◌, ◌^◌, List, length, MatchOption};
ghost use Rattle.fuun_base.specs.Quote.{protect};
ghost use Rattle.fuun_base.specs.Tally.{tally_of, tally_sum, tally_total, tally_quoted};
ghost use Rattle.fuun_base.specs.declared.letters.Base.{Base};

use crate::Base;

/// How many bases are counted at once: few enough for counters of a byte.
const PART: usize = 128;

/// How many of each base a list has.
#[derive(Clone, Copy, Debug, PartialEq, Eq)]
pub struct Tally {
    pub i: u64,
    pub c: u64,
    pub f: u64,
    pub p: u64,
}

impl Tally {
    /// The tally of these bases.
    pub fn of(bases: &[Base]) -> Tally
        ensures { result ≡ tally_of bases.now }
    {
        let mut tally = Tally {
            i: 0,
            c: 0,
            f: 0,
            p: 0,
        };
        let mut done = 0;
        while done < bases.len() {
            let end = bases.len().min(done + PART);
            tally = tally.plus(Tally::of_few(&bases[done..end]));
            done = end;
        }
        tally
    }

    /// The tally of two lists that are joined.
    pub fn plus(self, other: Tally) -> Tally
        requires { tally_total self + tally_total other < 2 ^ 64 }
        ensures { result ≡ tally_sum self other }
    {
        Tally {
            i: self.i + other.i,
            c: self.c + other.c,
            f: self.f + other.f,
            p: self.p + other.p,
        }
    }

    /// The length of a list of this tally after quoting it `level` times: None exactly where that is above `cap`.
    pub fn quoted_len(self, level: u64, cap: u64) -> Option<u64>
        requires sum { tally_total self ≤ 2 ^ 41 }
        requires cap { cap ≤ 2 ^ 41 }
        ensures { (d : List Base) → tally_of d ≡ self → let len = length (protect level d) in
            MatchOption result (cap < len) (λ n. (n ≡ len) × (n ≤ cap)) }
    {
        let mut tally = self;
        let mut left = level;
        loop {
            let len = tally.total();
            if len > cap {
                return None;
            }
            if left == 0 || len == 0 {
                return Some(len);
            }
            tally = tally.quoted();
            left -= 1;
        }
    }

    fn total(self) -> u64
        requires { tally_total self < 2 ^ 64 }
        ensures { result ≡ tally_total self }
    {
        self.i + self.c + self.f + self.p
    }

    fn quoted(self) -> Tally
        requires { tally_total self < 2 ^ 64 }
        ensures { result ≡ tally_quoted self }
    {
        Tally {
            i: self.p,
            c: self.i + self.p,
            f: self.c,
            p: self.f,
        }
    }

    fn of_few(bases: &[Base]) -> Tally
        requires { length bases.now ≤ PART }
        ensures { result ≡ tally_of bases.now }
    {
        let mut c = 0u8;
        let mut f = 0u8;
        let mut p = 0u8;
        for base in bases {
            c += u8::from(*base == Base::C);
            f += u8::from(*base == Base::F);
            p += u8::from(*base == Base::P);
        }
        let (c, f, p) = (u64::from(c), u64::from(f), u64::from(p));
        Tally {
            i: bases.len() as u64 - c - f - p,
            c,
            f,
            p,
        }
    }
}
