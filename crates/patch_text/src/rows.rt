//! The rows of a patch file.
ghost use Rattle.std.specs.Prelude.{◌≡◌, ◌↔◌, ◌^◌, ◌≤◌, ◌&&◌, false, true, length, Err, IfOk, OnErr, OnOk};
ghost use Rattle.patch_text.specs.Contents.{has_small_numbers, is_bounded, no_rows, put_of, with_row};
ghost use Rattle.patch_text.specs.Room.{has_room};

use fuun_base::{Base, BaseList, NoMemory};
use std::alloc::{AllocFailed, Global};
use std::marker::Model;

/// One row of a patch file. Places and counts are in bases of the DNA that the rows before it leave.
#[derive(Debug, Drop)]
pub enum PatchRow {
    /// Puts bases in the place of the `cut` bases at `place`.
    Edit {
        place: u64,
        cut: u64,
        put: BaseList,
    },
    /// Puts the `count` bases at `source` once more before the base at `target`.
    Copy {
        source: u64,
        count: u64,
        target: u64,
    },
    /// Takes the `count` bases at `source` out, and puts them before the base at `target` of what is left.
    Move {
        source: u64,
        count: u64,
        target: u64,
    },
}

/// Why a row was not added.
#[derive(Clone, Copy, Debug, PartialEq, Eq)]
pub enum AddError {
    /// A bound of the file would break.
    TooLarge,
    NoMemory,
}

impl<T: Drop> From<AllocFailed<T>> for AddError {
    ghost use Rattle.patch_text.specs.declared.rows.AddError.TheVariants.{NoMemory as OutOfMemory};

    ghost from_gives = { λ _ e. e ≡ OutOfMemory };

    fn from(_: AllocFailed<T>) -> Self {
        AddError::NoMemory
    }
}

/// The greatest length, place and count, in bases.
pub(crate) const MOST: u64 = 1 << 40;

/// The most rows of a file, and the most bases of all its puts together.
const MOST_ROWS: usize = 1 << 26;

/// A patch file, seen as the length of the DNA that it is for and its rows. The length and each number of a row are at
/// most 2^40, there are at most 2^26 rows, and the puts of all edits have at most 2^26 bases together.
#[derive(Debug, Drop)]
pub struct PatchFile {
    alloc: Global,
    stated: u64,
    rows: Vec<PatchRow>,
    // How many bases the puts of all edits have together.
    put_bases: usize,
}

impl Model for PatchFile {
    ghost use Rattle.std.specs.Prelude.{◌≡◌, true, length};
    ghost use Rattle.patch_text.specs.Contents.{Contents, is_bounded, puts_of};

    ghost Value = { Contents };

    ghost view = { λ f. record { stated = f.stated; rows = f.rows.items } };

    ghost invariant = { λ f. (is_bounded (record { stated = f.stated; rows = f.rows.items }) ≡ true) × (f.put_bases ≡ length (puts_of f.rows.items)) };
}

impl PatchFile {
    /// A file with no rows, for DNA of `length` bases.
    pub fn new(alloc: Global, length: u64) -> PatchFile
        requires { length ≤ 2 ^ 40 }
        ensures { result ≡ no_rows length }
    {
        PatchFile {
            alloc,
            stated: length,
            rows: Vec::new(alloc),
            put_bases: 0,
        }
    }

    /// The length in bases of the DNA that the file is for.
    pub fn length(&self) -> u64
        ensures length { result ≡ self.now.stated }
        ensures bounded { is_bounded self.now ≡ true }
    {
        self.stated
    }

    /// The rows, in the order in which they are carried out.
    pub fn rows(&self) -> &[PatchRow]
        ensures rows { result.now ≡ self.now.rows }
        ensures bounded { is_bounded self.now ≡ true }
    {
        &self.rows
    }

    /// Adds a row that puts bases in the place of `cut` bases at `place`.
    pub fn add(&mut self, place: u64, cut: u64, put: &[Base]) -> Result<(), AddError>
        ensures added { OnOk result (self.new ≡ with_row self.old (PatchRow.Edit place cut put.now)) }
        ensures too_large { (result ≡ Err AddError.TooLarge) ↔ (is_bounded (with_row self.old (PatchRow.Edit place cut put.now)) ≡ false) }
        ensures unchanged { OnErr result (self.new ≡ self.old) }
    {
        let is_small = (place <= MOST) & (cut <= MOST);
        if !self.has_room(is_small, put.len()) {
            return Err(AddError::TooLarge);
        }
        let Ok(put) = copied(self.alloc, put) else {
            return Err(AddError::NoMemory);
        };
        self.push(PatchRow::Edit { place, cut, put })
    }

    /// Adds a row that puts the `count` bases at `source` once more before the base at `target`.
    pub fn add_copy(&mut self, source: u64, count: u64, target: u64) -> Result<(), AddError>
        ensures added { OnOk result (self.new ≡ with_row self.old (PatchRow.Copy source count target)) }
        ensures too_large { (result ≡ Err AddError.TooLarge) ↔ (is_bounded (with_row self.old (PatchRow.Copy source count target)) ≡ false) }
        ensures unchanged { OnErr result (self.new ≡ self.old) }
    {
        self.add_row(PatchRow::Copy {
            source,
            count,
            target,
        })
    }

    /// Adds a row that takes the `count` bases at `source` out, and puts them before the base at `target` of what is left.
    pub fn add_move(&mut self, source: u64, count: u64, target: u64) -> Result<(), AddError>
        ensures added { OnOk result (self.new ≡ with_row self.old (PatchRow.Move source count target)) }
        ensures too_large { (result ≡ Err AddError.TooLarge) ↔ (is_bounded (with_row self.old (PatchRow.Move source count target)) ≡ false) }
        ensures unchanged { OnErr result (self.new ≡ self.old) }
    {
        self.add_row(PatchRow::Move {
            source,
            count,
            target,
        })
    }

    // Adds a row where no bound breaks.
    pub(crate) fn add_row(&mut self, row: PatchRow) -> Result<(), AddError>
        ensures added { OnOk result (self.new ≡ with_row self.old row) }
        ensures too_large { (result ≡ Err AddError.TooLarge) ↔ (is_bounded (with_row self.old row) ≡ false) }
        ensures unchanged { OnErr result (self.new ≡ self.old) }
    {
        if !self.has_room(has_small_numbers(&row), put_len(&row)) {
            return Err(AddError::TooLarge);
        }
        self.push(row)
    }

    // Whether a row may be added, by whether its numbers are small and how many bases it puts.
    fn has_room(&self, is_small: bool, put: usize) -> bool
        ensures value { result ≡ (is_small && has_room self.now put) }
        ensures bounded { is_bounded self.now ≡ true }
    {
        is_small & (self.rows().len() < MOST_ROWS) & (put <= MOST_ROWS - self.put_bases)
    }

    fn push(&mut self, row: PatchRow) -> Result<(), AddError>
        requires { is_bounded (with_row self.old row) ≡ true }
        ensures added { OnOk result (self.new ≡ with_row self.old row) }
        ensures unchanged { OnErr result (self.new ≡ self.old) }
        ensures memory { result ≡ Err AddError.TooLarge → ⊥ }
    {
        let put = put_len(&row);
        self.rows.push(row)?;
        self.put_bases += put;
        Ok(())
    }
}

fn has_small_numbers(row: &PatchRow) -> bool
    ensures { result ≡ has_small_numbers row.now }
{
    match row {
        PatchRow::Edit { place, cut, .. } => *place <= MOST && *cut <= MOST,
        PatchRow::Copy {
            source,
            count,
            target,
        }
        | PatchRow::Move {
            source,
            count,
            target,
        } => *source <= MOST && *count <= MOST && *target <= MOST,
    }
}

fn put_len(row: &PatchRow) -> usize
    ensures { result ≡ length (put_of row.now) }
{
    match row {
        PatchRow::Edit { put, .. } => put.len(),
        PatchRow::Copy { .. } | PatchRow::Move { .. } => 0,
    }
}

fn copied(alloc: Global, bases: &[Base]) -> Result<BaseList, NoMemory>
    ensures { IfOk result (λ list. list ≡ bases.now) }
{
    let mut list = Vec::with_capacity(alloc, bases.len())?;
    list.extend_from_slice(bases)?;
    BaseList::from_vec(alloc, list)
}
