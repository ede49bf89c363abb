ghost use Rattle.std.specs.Prelude.{◌≡◌, ℕ, ◌^◌, ◌<◌, ◌≤◌, ◌==◌, Some, None, IfOk, IfSome, OnOk, length, position};
ghost use Rattle.std.specs.Option.{option_map};
ghost use Rattle.rewinder.specs.Numbers.{number};
ghost use Rattle.rewinder.specs.Script.{back_of, behind, first_bad, order_of, orders, range_of, show_of, where_of};

use crate::{Order, OrderList, ScriptError};
use fuun_base::{decimal, first_line};
use std::alloc::Global;

/// The greatest number of a script.
const MOST: u64 = 1 << 40;

/// Reads a script of at most 2^26 bytes, one order a line: `step N`, `back N`, `show A B` or `where`, with single spaces.
/// A number is one or more decimal digits, from 0 to 2^40. A line feed ends a line, and bytes after the last one are a
/// line too.
pub fn read_script(alloc: Global, bytes: &[u8]) -> Result<OrderList, ScriptError>
    requires { length bytes.now ≤ 2 ^ 26 }
    ensures orders { IfOk result (λ list. list ≡ orders bytes.now) }
    ensures none_bad { OnOk result (first_bad bytes.now ≡ None) }
    ensures bad { (line : ℕ) → result ≡ Err (ScriptError.BadScript line) → first_bad bytes.now ≡ Some line }
{
    let mut list = OrderList::new(alloc);
    let mut rest = bytes;
    let mut line = 1;
    while rest.len() > 0 {
        let (text, more) = first_line(rest);
        let Some(order) = order_of(text) else {
            return Err(ScriptError::BadScript { line });
        };
        list.push(order)?;
        rest = more;
        line += 1;
    }
    Ok(list)
}

// The order of a line.
fn order_of(line: &[u8]) -> Option<Order>
    ensures { result ≡ order_of line.now }
{
    match behind(line, b"step ") {
        Some(text) => number(text).map(Order::Step),
        None => back_of(line),
    }
}

fn back_of(line: &[u8]) -> Option<Order>
    ensures { result ≡ back_of line.now }
{
    match behind(line, b"back ") {
        Some(text) => number(text).map(Order::Back),
        None => show_of(line),
    }
}

fn show_of(line: &[u8]) -> Option<Order>
    ensures { result ≡ show_of line.now }
{
    match behind(line, b"show ") {
        Some(text) => range_of(text),
        None => where_of(line),
    }
}

fn where_of(line: &[u8]) -> Option<Order>
    ensures { result ≡ where_of line.now }
{
    if line == b"where".as_slice() {
        Some(Order::Where)
    } else {
        None
    }
}

// What stands behind a word at the front of a line.
fn behind<'a>(line: &'a [u8], word: &[u8]) -> Option<&'a [u8]>
    ensures { option_map (λ text. text.now) result ≡ behind word.now line.now }
{
    line.strip_prefix(word)
}

// Where the first space stands.
fn space(text: &[u8]) -> Option<usize>
    ensures place { result ≡ position (λ byte. byte == 32) text.now }
    ensures within { IfSome result (λ at. at < length text.now) }
{
    text.iter().position(|byte| *byte == b' ')
}

// The numbers round a space.
fn range_of(text: &[u8]) -> Option<Order>
    ensures { result ≡ range_of text.now }
{
    let at = space(text)?;
    let lo = number(&text[..at])?;
    let hi = number(&text[at + 1..])?;
    Some(Order::Show { lo, hi })
}

// The number that a text of decimal digits alone writes, where it is at most 2^40.
fn number(text: &[u8]) -> Option<u64>
    ensures { result ≡ number text.now }
{
    decimal(text, MOST)
}
