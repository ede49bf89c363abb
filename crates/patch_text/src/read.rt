//! The text of a patch file.
ghost use Rattle.std.specs.Prelude.{codes, ◌≡◌, ◌+◌, ◌^◌, ◌≤◌, false, true, Ok, Err, None, Some, IfErr, IfOk, IfSome, OnOk, length};
ghost use Rattle.std.specs.Option.{option_map, option_and_then};
ghost use Rattle.toml.specs.Data.{as_array, as_table, get_member};
ghost use Rattle.toml.specs.View.{items_view, table_view, view};
ghost use Rattle.patch_text.specs.Meaning.{contents_in, copy_in, edit_in, heading_in, items_of, move_in, patches, row_in, shift_in, version_in, with_bounded, with_member, with_members};

use crate::openings::count_openings;
use crate::rows::{AddError, PatchFile, PatchRow};
use crate::table::{Kind, bases_at, has_only, number_at};
use fuun_base::NoMemory;
use std::alloc::Global;
use toml::{Table, Value};

/// Why bytes are no patch file.
#[derive(Clone, Copy, Debug, PartialEq, Eq)]
pub enum PatchError {
    /// The bytes are no TOML document.
    BadToml,
    /// The first row that is refused, counted from 1; 0 is the heading.
    BadPatch { index: u64 },
    NoMemory,
}

impl From<NoMemory> for PatchError {
    ghost use Rattle.patch_text.specs.declared.read.PatchError.TheVariants.{NoMemory as OutOfMemory};

    ghost from_gives = { λ _ e. e ≡ OutOfMemory };

    fn from(_: NoMemory) -> Self {
        PatchError::NoMemory
    }
}

/// How many brackets, braces and dots a patch file may have outside comments and strings. Each may open a table, for
/// which the reader of TOML takes about a kilobyte; rows of 2^26 bytes have fewer, two for each `[[patch]]`.
const MOST_OPENINGS: usize = 5 << 20;

/// Reads a patch file of at most 2^26 bytes: a TOML document.
///
/// The heading has the keys `version`, which is 1 or 2, `length`, and `patch`, an array of tables, which may lack. A row
/// that edits has the keys `at`, `cut` and `put`, one that copies `copy`, `count` and `to`, and one that moves `move`,
/// `count` and `to`; in version 1 all rows edit. Each number is from 0 to 2^40, and `put` is a text of the letters I, C,
/// F and P alone. The heading is judged first, then the rows in order. Bytes with more than 5 * 2^20 opening brackets,
/// opening braces and dots outside comments and strings are answered as want of memory.
pub fn read_patches(alloc: Global, bytes: &[u8]) -> Result<PatchFile, PatchError>
    requires { length bytes.now ≤ 2 ^ 26 }
    ensures taken { IfOk result (λ file. patches bytes.now ≡ Ok file) }
    ensures refused { IfErr result (λ e. ¬ (e ≡ PatchError.NoMemory) → patches bytes.now ≡ Err e) }
{
    if count_openings(bytes) > MOST_OPENINGS {
        return Err(PatchError::NoMemory);
    }
    match toml::table_from_slice(alloc, bytes) {
        Ok(table) => read_table(alloc, &table),
        Err(error) => Err(error_of(error.is_memory())),
    }
}

fn error_of(is_memory: bool) -> PatchError
    ensures memory { is_memory ≡ true → result ≡ PatchError.NoMemory }
    ensures other { is_memory ≡ false → result ≡ PatchError.BadToml }
{
    if is_memory {
        PatchError::NoMemory
    } else {
        PatchError::BadToml
    }
}

fn read_table(alloc: Global, table: &Table) -> Result<PatchFile, PatchError>
    ensures taken { IfOk result (λ file. contents_in (table_view table.now) ≡ Ok file) }
    ensures refused { IfErr result (λ e. ¬ (e ≡ PatchError.NoMemory) → contents_in (table_view table.now) ≡ Err e) }
{
    let Some(heading) = read_heading(table) else {
        return Err(PatchError::BadPatch { index: 0 });
    };
    let mut file = PatchFile::new(alloc, heading.length);
    match add_members(alloc, heading.version, heading.items, &mut file) {
        Ok(()) => Ok(file),
        Err(error) => Err(error),
    }
}

/// What the heading says: the version, the length in bases, and the members of the array.
#[derive(Clone, Copy)]
struct Heading<'a> {
    version: u64,
    length: u64,
    items: &'a [Value],
}

fn read_heading(table: &Table) -> Option<Heading<'_>>
    ensures value { option_map (λ h. record { version = h.version; stated = h.length; items = items_view h.items.now }) result ≡ heading_in (table_view table.now) }
    ensures small { IfSome result (λ h. h.length ≤ 2 ^ 40) }
{
    if !has_only(Kind::Heading, table) {
        return None;
    }
    let version = version_of(table)?;
    let length = number_at(table, "length")?;
    let items = items_of(table)?;
    Some(Heading {
        version,
        length,
        items,
    })
}

fn version_of(table: &Table) -> Option<u64>
    ensures { result ≡ version_in (table_view table.now) }
{
    match number_at(table, "version") {
        Some(version) if version == 1 || version == 2 => Some(version),
        _ => None,
    }
}

fn items_of(table: &Table) -> Option<&[Value]>
    ensures { option_map (λ items. items_view items.now) result ≡ items_of (get_member (codes "patch") (table_view table.now)) }
{
    match table.get("patch") {
        Some(value) => array_of(value),
        None => Some(&[]),
    }
}

fn array_of(value: &Value) -> Option<&[Value]>
    ensures { option_map (λ items. items_view items.now) result ≡ as_array (view value.now) }
{
    match value.as_array() {
        Some(items) => Some(items),
        None => None,
    }
}

// Adds the rows of an array's members.
fn add_members(
    alloc: Global,
    version: u64,
    items: &[Value],
    file: &mut PatchFile,
) -> Result<(), PatchError>
    ensures taken { OnOk result (with_members version file.old (items_view items.now) ≡ Ok file.new) }
    ensures refused { IfErr result (λ e. ¬ (e ≡ PatchError.NoMemory) → with_members version file.old (items_view items.now) ≡ Err e) }
{
    'items: for item in items {
        if let Err(error) = add_member(alloc, version, item, file) {
            return Err(error);
        }
    }
    Ok(())
}

fn add_member(
    alloc: Global,
    version: u64,
    item: &Value,
    file: &mut PatchFile,
) -> Result<(), PatchError>
    ensures taken { OnOk result (with_member version file.old (view item.now) ≡ Ok file.new) }
    ensures refused { IfErr result (λ e. ¬ (e ≡ PatchError.NoMemory) → with_member version file.old (view item.now) ≡ Err e) }
{
    let index = file.rows().len() as u64 + 1;
    match read_member(alloc, version, item)? {
        Some(row) => add_row(index, row, file),
        None => Err(PatchError::BadPatch { index }),
    }
}

fn add_row(index: u64, row: PatchRow, file: &mut PatchFile) -> Result<(), PatchError>
    requires { index ≡ length file.old.rows + 1 }
    ensures taken { OnOk result (with_bounded file.old row ≡ Ok file.new) }
    ensures refused { IfErr result (λ e. ¬ (e ≡ PatchError.NoMemory) → with_bounded file.old row ≡ Err e) }
{
    match file.add_row(row) {
        Ok(()) => Ok(()),
        Err(AddError::TooLarge) => Err(PatchError::BadPatch { index }),
        Err(AddError::NoMemory) => Err(PatchError::NoMemory),
    }
}

// The row that a member of the array stands for: None where it is refused.
fn read_member(alloc: Global, version: u64, item: &Value) -> Result<Option<PatchRow>, NoMemory>
    ensures { IfOk result (λ row. row ≡ option_and_then (row_in version) (as_table (view item.now))) }
{
    match item.as_table() {
        Some(table) => read_row(alloc, version, table),
        None => Ok(None),
    }
}

fn read_row(alloc: Global, version: u64, table: &Table) -> Result<Option<PatchRow>, NoMemory>
    ensures { IfOk result (λ row. row ≡ row_in version (table_view table.now)) }
{
    if has_only(Kind::Edit, table) {
        return read_edit(alloc, table);
    }
    Ok(read_shift(version, table))
}

// The copy or move that a table stands for.
fn read_shift(version: u64, table: &Table) -> Option<PatchRow>
    ensures { result ≡ shift_in version (table_view table.now) }
{
    if version == 1 {
        return None;
    }
    if has_only(Kind::Copy, table) {
        return read_copy(table);
    }
    if has_only(Kind::Move, table) {
        return read_move(table);
    }
    None
}

fn read_edit(alloc: Global, table: &Table) -> Result<Option<PatchRow>, NoMemory>
    ensures { IfOk result (λ row. row ≡ edit_in (table_view table.now)) }
{
    let (Some(place), Some(cut)) = (number_at(table, "at"), number_at(table, "cut")) else {
        return Ok(None);
    };
    match bases_at(alloc, table, "put")? {
        Some(put) => Ok(Some(PatchRow::Edit { place, cut, put })),
        None => Ok(None),
    }
}

fn read_copy(table: &Table) -> Option<PatchRow>
    ensures { result ≡ copy_in (table_view table.now) }
{
    let source = number_at(table, "copy")?;
    let count = number_at(table, "count")?;
    let target = number_at(table, "to")?;
    Some(PatchRow::Copy {
        source,
        count,
        target,
    })
}

fn read_move(table: &Table) -> Option<PatchRow>
    ensures { result ≡ move_in (table_view table.now) }
{
    let source = number_at(table, "move")?;
    let count = number_at(table, "count")?;
    let target = number_at(table, "to")?;
    Some(PatchRow::Move {
        source,
        count,
        target,
    })
}
