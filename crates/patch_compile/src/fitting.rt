//! Which rows fit.
ghost use Rattle.std.specs.Prelude.{◌≡◌, ◌+◌, ◌*◌, ◌^◌, ◌≤◌, true, MatchOption};
ghost use Rattle.patch_text.specs.Lengths.{fits, length_after, AllFit, IsOutside};

use patch_text::{PatchFile, PatchRow};

/// The first row that does not fit the DNA that those before it leave, counted from 1.
pub(crate) fn first_outside(file: &PatchFile) -> Option<u64>
    ensures { MatchOption result (AllFit file.now.stated file.now.rows) (λ number. IsOutside file.now number) }
{
    let mut length = u128::from(file.length());
    'rows: for (index, row) in file.rows().iter().enumerate() {
        if !fits(length, row) {
            return Some(index as u64 + 1);
        }
        length = length_after(length, row);
    }
    None
}

fn fits(length: u128, row: &PatchRow) -> bool
    ensures { result ≡ fits length row.now }
{
    match row {
        PatchRow::Edit { place, cut, .. } => u128::from(*place) + u128::from(*cut) <= length,
        PatchRow::Copy {
            source,
            count,
            target,
        } => { u128::from(*source) + u128::from(*count) <= length && u128::from(*target) <= length }
        PatchRow::Move {
            source,
            count,
            target,
        } => {
            u128::from(*source) + u128::from(*count) <= length
                && u128::from(*target) <= length - u128::from(*count)
        }
    }
}

fn length_after(length: u128, row: &PatchRow) -> u128
    requires fit { fits length row.now ≡ true }
    requires room { length + 2 ^ 64 ≤ u128.MAX }
    ensures value { result ≡ length_after length row.now }
    ensures most { result ≤ length + 2 ^ 64 }
{
    match row {
        PatchRow::Edit { cut, put, .. } => length - u128::from(*cut) + put.len() as u128,
        PatchRow::Copy { count, .. } => length + u128::from(*count),
        PatchRow::Move { .. } => length,
    }
}
