ghost use Rattle.std.specs.Prelude.{◌≡◌, ◌+◌, ◌^◌, ◌≤◌, ◌++◌, List, [], drop, length, min, position, IfOk, MatchOption};
ghost use Rattle.fuun_base.specs.declared.letters.Base.{Base};
ghost use Rattle.fuun_base.specs.Quote.{quote};
ghost use Rattle.dna_reader.specs.Constants.{consts, IsConstants};
ghost use Rattle.dna_reader.specs.Digits.{counted, HaveRead};
ghost use Rattle.dna_reader.specs.Numeral.{is_p, numeral};
ghost use Rattle.dna_reader.specs.Taking.{IsNumeralAt};
ghost use Rattle.dna_reader.specs.Window.{Shows};

use crate::heads::unquoted_front;
use crate::window::Window;
use dna_items::BIG;
use fuun_base::{Base, BaseList, NoMemory};
use std::alloc::Global;
use strand::Strand;

/// Digits of a numeral: their value, and what a C would add as the next one. Both are held at `BIG`.
#[derive(Clone, Copy)]
pub struct Digits {
    value: u64,
    weight: u64,
}

impl Digits {
    fn new() -> Digits
        ensures { HaveRead result [] }
    {
        Digits {
            value: 0,
            weight: 1,
        }
    }

    fn read(&mut self, bases: &[Base])
        ensures { (read : List Base) → HaveRead self.old read → HaveRead self.new (read ++ bases.now) }
    {
        for base in bases {
            self.value = held_sum(self.value, added(*base, self.weight));
            self.weight = held_sum(self.weight, self.weight);
        }
    }
}

fn held_sum(a: u64, b: u64) -> u64
    ensures { result ≡ min (a + b) (2 ^ 63) }
{
    a.saturating_add(b).min(BIG)
}

fn added(base: Base, weight: u64) -> u64
    ensures { result ≡ counted base weight }
{
    match base {
        Base::C => weight,
        Base::I | Base::F | Base::P => 0,
    }
}

fn first_p(bases: &[Base]) -> Option<usize>
    ensures { result ≡ position is_p bases.now }
{
    bases.iter().position(|base| matches!(base, Base::P))
}

/// Reads the numeral at a place: its value, held at 2^63, and the place behind its P.
/// None exactly where no P stands at or after the place.
pub fn read_numeral<S: Strand>(s: &S, place: u64) -> Option<(u64, u64)>
    requires { place ≤ length (S.bases s.now) }
    ensures { MatchOption result
        (numeral (drop place (S.bases s.now)) ≡ None)
        (λ read. IsNumeralAt (S.bases s.now) place read.0 read.1) }
{
    let mut window = Window::at(s, place);
    let value = numeral_ahead(s, &mut window)?;
    Some((value, window.place()))
}

/// Reads the numeral ahead, and goes behind its P.
pub fn numeral_ahead<S: Strand>(s: &S, window: &mut Window) -> Option<u64>
    requires { Shows window.old (S.bases s.now) }
    ensures shows { Shows window.new (S.bases s.now) }
    ensures read { MatchOption result
        (numeral (drop window.old.place (S.bases s.now)) ≡ None)
        (λ value. IsNumeralAt (S.bases s.now) window.old.place value window.new.place) }
{
    let mut digits = Digits::new();
    loop {
        window.fill(s);
        let ahead = window.ahead();
        let count = ahead.len();
        if count == 0 {
            return None;
        }
        if let Some(end) = first_p(ahead) {
            digits.read(&ahead[..end]);
            window.pass(end + 1);
            return Some(digits.value);
        }
        digits.read(ahead);
        window.pass(count);
    }
}

/// Reads the constants at a place: the bases that they stand for, and the place behind them.
pub fn read_consts<S: Strand>(alloc: Global, s: &S, place: u64) -> Result<(BaseList, u64), NoMemory>
    requires { place ≤ length (S.bases s.now) }
    ensures bases { IfOk result (λ read. read.0 ≡ consts (drop place (S.bases s.now))) }
    ensures longest { IfOk result (λ read. IsConstants read.0 (drop place (S.bases s.now))) }
    ensures next { IfOk result (λ read. read.1 ≡ place + length (quote read.0)) }
    ensures within { IfOk result (λ read. read.1 ≤ length (S.bases s.now)) }
{
    let mut window = Window::at(s, place);
    let constants = constants_ahead(alloc, s, &mut window)?;
    Ok((constants, window.place()))
}

/// Reads the constants ahead, and goes behind them.
pub fn constants_ahead<S: Strand>(
    alloc: Global,
    s: &S,
    window: &mut Window,
) -> Result<BaseList, NoMemory>
    requires { Shows window.old (S.bases s.now) }
    ensures shows { Shows window.new (S.bases s.now) }
    ensures bases { IfOk result (λ constants. constants ≡ consts (drop window.old.place (S.bases s.now))) }
    ensures next { IfOk result (λ constants. window.new.place ≡ window.old.place + length (quote constants)) }
{
    let mut constants = BaseList::new(alloc);
    loop {
        window.fill(s);
        let Some((base, letters)) = unquoted_front(window.ahead()) else {
            return Ok(constants);
        };
        constants.push(base)?;
        window.pass(letters);
    }
}
