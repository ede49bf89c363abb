ghost use Rattle.std.specs.Prelude.{◌≡◌, ◌+◌, ◌^◌, ◌<◌, length, slice_index, slice_index_or, vec_len, IfOk};
ghost use Rattle.fuun_base.specs.declared.letters.Base.{Base};
ghost use Rattle.fuun_base.specs.declared.letters.Base.TheVariants.{I};
ghost use Rattle.rope_search.specs.Automaton.{column, IsNext, IsBorder, AreRows};

use fuun_base::{Base, NoMemory};
use std::alloc::Global;

/// For each number of bases found, but for the whole needle, how many are found with I, C, F or P after them.
pub(crate) fn rows_of(alloc: Global, needle: &[Base]) -> Result<Vec<[u32; 4]>, NoMemory>
    ensures len { IfOk result (λ rows. vec_len rows ≡ length needle.now) }
    ensures small { IfOk result (λ rows. length needle.now < 2 ^ 32) }
    ensures rows { IfOk result (λ rows. AreRows needle.now rows.items) }
{
    if needle.len() > u32::MAX as usize {
        return Err(NoMemory);
    }
    let mut rows = Vec::with_capacity(alloc, needle.len())?;
    let mut back = 0;
    for (found, base) in needle.iter().enumerate() {
        let mut row = row_behind(needle, rows.as_slice(), back);
        let at = column_of(*base);
        back = row[at];
        row[at] = found as u32 + 1;
        rows.push_reserved(row);
    }
    Ok(rows)
}

/// The next row, but for the base that goes on in the needle: there it has the next border.
fn row_behind(needle: &[Base], rows: &[[u32; 4]], back: u32) -> [u32; 4]
    requires room { length rows.now < length needle.now }
    requires rows { AreRows needle.now rows.now }
    requires border { IsBorder needle.now (length rows.now) back }
    ensures others { (base : Base) → (base ≡ slice_index_or needle.now (length rows.now) I → ⊥)
        → IsNext needle.now (length rows.now) base (slice_index result (column base)) }
    ensures border { IsBorder needle.now (length rows.now + 1)
        (slice_index result (column (slice_index_or needle.now (length rows.now) I))) }
{
    let _needle = needle;
    if rows.is_empty() {
        return [0; 4];
    }
    rows[back as usize]
}

pub(crate) fn column_of(base: Base) -> usize
    ensures column { result ≡ column base }
    ensures most { result < 4 }
{
    base as usize
}
