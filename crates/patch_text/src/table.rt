//! What stands at the keys of a table.
ghost use Rattle.std.specs.Prelude.{◌≡◌, ◌^◌, ◌≤◌, IfOk, IfSome, option_copied};
ghost use Rattle.std.specs.Option.{option_map, option_and_then};
ghost use Rattle.toml.specs.Data.{as_integer, as_str, get_member};
ghost use Rattle.toml.specs.View.{table_view, view};
ghost use Rattle.patch_text.specs.Keys.{keys_of};
ghost use Rattle.patch_text.specs.Meaning.{bases_at, bases_of, has_only, is_among, number_at, small_number};

use crate::rows::MOST;
use fuun_base::{Base, BaseList, NoMemory};
use std::alloc::Global;
use toml::{Table, Value};

/// The kinds of tables, each with its keys.
#[derive(Clone, Copy)]
pub(crate) enum Kind {
    Heading,
    Edit,
    Copy,
    Move,
}

/// Whether a table has no other keys than those of a kind.
pub(crate) fn has_only(kind: Kind, table: &Table) -> bool
    ensures { result ≡ has_only (keys_of kind) (table_view table.now) }
{
    'members: for (key, _value) in table.iter() {
        if !is_key(kind, key.as_str()) {
            return false;
        }
    }
    true
}

fn is_key(kind: Kind, key: &str) -> bool
    ensures { result ≡ is_among (keys_of kind) key.now }
{
    match kind {
        Kind::Heading => key == "version" || key == "length" || key == "patch",
        Kind::Edit => key == "at" || key == "cut" || key == "put",
        Kind::Copy => key == "copy" || key == "count" || key == "to",
        Kind::Move => key == "move" || key == "count" || key == "to",
    }
}

/// The whole number from 0 to 2^40 at a key.
pub(crate) fn number_at(table: &Table, key: &str) -> Option<u64>
    ensures value { result ≡ number_at key.now (table_view table.now) }
    ensures small { IfSome result (λ n. n ≤ 2 ^ 40) }
{
    match table.get(key) {
        Some(value) => number_of(value),
        None => None,
    }
}

fn number_of(value: &Value) -> Option<u64>
    ensures value { result ≡ option_and_then small_number (as_integer (view value.now)) }
    ensures small { IfSome result (λ n. n ≤ 2 ^ 40) }
{
    match value.as_integer() {
        Some(number) => small_number(number),
        None => None,
    }
}

fn small_number(number: i64) -> Option<u64>
    ensures value { result ≡ small_number number }
    ensures small { IfSome result (λ n. n ≤ 2 ^ 40) }
{
    if number < 0 || number > MOST as i64 {
        return None;
    }
    Some(number as u64)
}

/// The bases of the text at a key, which must be letters of bases alone.
pub(crate) fn bases_at(
    alloc: Global,
    table: &Table,
    key: &str,
) -> Result<Option<BaseList>, NoMemory>
    ensures { IfOk result (λ put. put ≡ bases_at key.now (table_view table.now)) }
{
    match text_at(table, key) {
        Some(text) => bases_of(alloc, text.as_bytes()),
        None => Ok(None),
    }
}

fn text_at<'a>(table: &'a Table, key: &str) -> Option<&'a str>
    ensures { option_copied result ≡ option_and_then as_str (get_member key.now (table_view table.now)) }
{
    match table.get(key) {
        Some(value) => value.as_str(),
        None => None,
    }
}

fn bases_of(alloc: Global, text: &[u8]) -> Result<Option<BaseList>, NoMemory>
    ensures { IfOk result (λ put. put ≡ bases_of text.now) }
{
    let mut put = BaseList::new(alloc);
    'letters: for letter in text {
        match Base::from_letter(*letter) {
            Some(base) => put.push(base)?,
            None => return Ok(None),
        }
    }
    Ok(Some(put))
}
