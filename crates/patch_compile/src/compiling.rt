//! From rows to the prefix.
ghost use Rattle.std.specs.Prelude.{◌≡◌, ℕ, ◌+◌, ◌^◌, ◌<◌, ◌≤◌, ◌++◌, true, Err, IfErr, IfOk, Ok, OnOk, length, reverse};
ghost use Rattle.std.specs.List.{list_all};
ghost use Rattle.patch_text.specs.Contents.{has_small_numbers};
ghost use Rattle.patch_text.specs.Lengths.{AllFit, IsOutside};
ghost use Rattle.patch_compile.specs.Code.{prefix, row_code};
ghost use Rattle.patch_compile.specs.Compiled.{compiled};
ghost use Rattle.patch_compile.specs.Law.{CarriesOut};

use crate::code::put_row;
use crate::fitting::first_outside;
use fuun_base::{Base, BaseList, NoMemory};
use patch_text::{PatchFile, PatchRow};
use std::alloc::Global;

/// Why a patch file has no prefix.
#[derive(Clone, Copy, Debug, PartialEq, Eq)]
pub enum CompileError {
    /// The first row that does not fit the DNA that those before it leave, counted from 1.
    Outside { index: u64 },
    /// All rows fit, and the prefix is longer than the limit.
    TooLong,
    NoMemory,
}

/// The prefix of a patch file, of at most `limit` bases, where `limit` is at most 2^40. Put before any DNA of the file's
/// length it makes the machine carry out the rows, one attempt a row, under a limit that each DNA on the way is within (a copy
/// of a whole DNA doubles it), and it is used up then.
pub fn compile(alloc: Global, file: &PatchFile, limit: u64) -> Result<BaseList, CompileError>
    requires { limit ≤ 2 ^ 40 }
    ensures taken { IfOk result (λ list. compiled file.now limit ≡ Ok list) }
    ensures refused { IfErr result (λ e. ¬ (e ≡ CompileError.NoMemory) → compiled file.now limit ≡ Err e) }
    ensures prefix { IfOk result (λ list. list ≡ prefix file.now.rows) }
    ensures within { IfOk result (λ list. length list ≤ limit) }
    ensures fit { OnOk result (AllFit file.now.stated file.now.rows) }
    ensures carries_out { IfOk result (λ list. CarriesOut file.now list) }
    ensures outside { (index : ℕ) → result ≡ Err (CompileError.Outside index) → IsOutside file.now index }
    ensures too_long { result ≡ Err CompileError.TooLong → AllFit file.now.stated file.now.rows × (limit < length (prefix file.now.rows)) }
{
    if let Some(index) = first_outside(file) {
        return Err(CompileError::Outside { index });
    }
    match reversed_prefix(alloc, file.rows(), limit) {
        Ok(mut bases) => {
            bases.reverse();
            match BaseList::from_vec(alloc, bases) {
                Ok(list) => Ok(list),
                Err(NoMemory) => Err(CompileError::NoMemory),
            }
        }
        Err(error) => Err(error),
    }
}

// The prefix from its last base to its first.
fn reversed_prefix(alloc: Global, rows: &[PatchRow], limit: u64) -> Result<Vec<Base>, CompileError>
    requires small { list_all has_small_numbers rows.now ≡ true }
    requires limit { limit ≤ 2 ^ 40 }
    ensures prefix { IfOk result (λ bases. bases.items ≡ reverse (prefix rows.now)) }
    ensures within { IfOk result (λ bases. length (prefix rows.now) ≤ limit) }
    ensures too_long { result ≡ Err CompileError.TooLong → limit < length (prefix rows.now) }
    ensures inside { (index : ℕ) → result ≡ Err (CompileError.Outside index) → ⊥ }
{
    let mut bases = Vec::new(alloc);
    let mut part = Vec::new(alloc);
    let mut left = rows.len();
    'rows: while left > 0 {
        left -= 1;
        if let Err(error) = add_part(&rows[left], limit, &mut part, &mut bases) {
            return Err(error);
        }
    }
    Ok(bases)
}

// Appends the part of a row, last base first, behind the parts that follow it. `part` is any vector to work in.
fn add_part(
    row: &PatchRow,
    limit: u64,
    part: &mut Vec<Base>,
    bases: &mut Vec<Base>,
) -> Result<(), CompileError>
    requires small { has_small_numbers row.now ≡ true }
    requires limit { limit ≤ 2 ^ 40 }
    requires within { length bases.old.items ≤ limit }
    ensures added { OnOk result (bases.new.items ≡ bases.old.items ++ reverse (row_code row.now (length bases.old.items))) }
    ensures within { OnOk result (length bases.old.items + length (row_code row.now (length bases.old.items)) ≤ limit) }
    ensures too_long { result ≡ Err CompileError.TooLong → limit < length bases.old.items + length (row_code row.now (length bases.old.items)) }
    ensures inside { (index : ℕ) → result ≡ Err (CompileError.Outside index) → ⊥ }
{
    let behind = bases.len() as u64;
    part.clear();
    if put_row(row, behind, part).is_err() {
        return Err(CompileError::NoMemory);
    }
    if part.len() as u64 > limit - behind {
        return Err(CompileError::TooLong);
    }
    part.reverse();
    if bases.extend_from_slice(part).is_err() {
        return Err(CompileError::NoMemory);
    }
    Ok(())
}
