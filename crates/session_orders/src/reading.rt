//! The order of a line, found word by word.
ghost use Rattle.std.specs.Prelude.{◌≡◌, IfOk};
ghost use Rattle.session_orders.specs.Orders.{alone, bases_of, count_of, front_of, line_of, no_match_of, number, order_of, range_of, simple_order_of, until_of};
ghost use Rattle.session_orders.specs.Words.{words};

use crate::words::{before_comment, first_word};
use crate::{Line, Order, Until};
use fuun_base::{Base, BaseList, NoMemory, decimal};
use std::alloc::Global;

/// The greatest number of an order.
const MOST: u64 = 1 << 40;

/// Reads a line, given without its line feed. Its words stand before the first `#`, and spaces, tabs and carriage returns part
/// them. The orders are `step N`, `back N`, `where`, `show A B`, `pair`, `rna`, `match`, `trace N`, `until no match`,
/// `until rna`, `until front S` and `until length N`. A number is one or more decimal digits, from 0 to 2^40, and `N` may be
/// left out, which means 1. `S` is one or more of the letters I, C, F and P. Time is linear in the line.
pub fn read_order(alloc: Global, line: &[u8]) -> Result<Line, NoMemory>
    ensures { IfOk result (λ said. said ≡ line_of line.now) }
{
    let Some((verb, rest)) = first_word(before_comment(line)) else {
        return Ok(Line::Nothing);
    };
    match order_of(alloc, verb, rest)? {
        Some(order) => Ok(Line::Ordered(order)),
        None => Ok(Line::Refused),
    }
}

// The order of a line that begins with a word.
fn order_of(alloc: Global, verb: &[u8], rest: &[u8]) -> Result<Option<Order>, NoMemory>
    ensures { IfOk result (λ order. order ≡ order_of verb.now (words rest.now)) }
{
    if verb == b"until".as_slice() {
        Ok(until_of(alloc, rest)?.map(Order::Until))
    } else {
        Ok(simple_order_of(verb, rest))
    }
}

// The order, where it is no `until`.
fn simple_order_of(verb: &[u8], rest: &[u8]) -> Option<Order>
    ensures { result ≡ simple_order_of verb.now (words rest.now) }
{
    if verb == b"step".as_slice() {
        count_of(rest).map(Order::Step)
    } else if verb == b"back".as_slice() {
        count_of(rest).map(Order::Back)
    } else if verb == b"where".as_slice() {
        alone(Order::Where, rest)
    } else if verb == b"show".as_slice() {
        range_of(rest)
    } else if verb == b"pair".as_slice() {
        alone(Order::Pair, rest)
    } else if verb == b"rna".as_slice() {
        alone(Order::Rna, rest)
    } else if verb == b"match".as_slice() {
        alone(Order::Match, rest)
    } else if verb == b"trace".as_slice() {
        count_of(rest).map(Order::Trace)
    } else {
        None
    }
}

// What `until` seeks.
fn until_of(alloc: Global, rest: &[u8]) -> Result<Option<Until>, NoMemory>
    ensures { IfOk result (λ until. until ≡ until_of (words rest.now)) }
{
    let Some((goal, rest)) = first_word(rest) else {
        return Ok(None);
    };
    if goal == b"no".as_slice() {
        Ok(no_match_of(rest))
    } else if goal == b"rna".as_slice() {
        Ok(alone(Until::Rna, rest))
    } else if goal == b"front".as_slice() {
        Ok(front_of(alloc, rest)?.map(Until::Front))
    } else if goal == b"length".as_slice() {
        Ok(count_of(rest).map(Until::Length))
    } else {
        Ok(None)
    }
}

// What was found, where no word follows.
fn alone<T: Drop>(found: T, rest: &[u8]) -> Option<T>
    ensures { result ≡ alone found (words rest.now) }
{
    match first_word(rest) {
        Some(_) => None,
        None => Some(found),
    }
}

// The number that may follow alone, and otherwise 1.
fn count_of(rest: &[u8]) -> Option<u64>
    ensures { result ≡ count_of (words rest.now) }
{
    let Some((word, rest)) = first_word(rest) else {
        return Some(1);
    };
    alone(number(word)?, rest)
}

// The two numbers that follow.
fn range_of(rest: &[u8]) -> Option<Order>
    ensures { result ≡ range_of (words rest.now) }
{
    let (lo, rest) = first_word(rest)?;
    let (hi, rest) = first_word(rest)?;
    let lo = number(lo)?;
    let hi = number(hi)?;
    alone(Order::Show { lo, hi }, rest)
}

// The end of `until no match`.
fn no_match_of(rest: &[u8]) -> Option<Until>
    ensures { result ≡ no_match_of (words rest.now) }
{
    let (word, rest) = first_word(rest)?;
    if word == b"match".as_slice() {
        alone(Until::NoMatch, rest)
    } else {
        None
    }
}

// The bases that follow alone.
fn front_of(alloc: Global, rest: &[u8]) -> Result<Option<BaseList>, NoMemory>
    ensures { IfOk result (λ front. front ≡ front_of (words rest.now)) }
{
    let Some((word, rest)) = first_word(rest) else {
        return Ok(None);
    };
    let Some(bases) = bases_of(alloc, word)? else {
        return Ok(None);
    };
    Ok(alone(bases, rest))
}

// The bases of a word of letters of bases alone.
fn bases_of(alloc: Global, word: &[u8]) -> Result<Option<BaseList>, NoMemory>
    ensures { IfOk result (λ bases. bases ≡ bases_of word.now) }
{
    let mut bases = BaseList::new(alloc);
    'letters: for letter in word {
        match Base::from_letter(*letter) {
            Some(base) => bases.push(base)?,
            None => return Ok(None),
        }
    }
    Ok(Some(bases))
}

// The number that a word writes.
fn number(word: &[u8]) -> Option<u64>
    ensures { result ≡ number word.now }
{
    decimal(word, MOST)
}
