ghost use Rattle.std.specs.Prelude.{true, ◌≡◌, ◌+◌, ◌*◌, ◌^◌, ◌<◌, ◌≤◌, length, IfOk, OnOk};
ghost use Rattle.patch_text.specs.Contents.{is_bounded, with_row};
ghost use Rattle.patch_text.specs.declared.rows.PatchRow.TheVariants.{Edit};
ghost use Rattle.patch_text.specs.Lengths.{AllFit, length_after};
ghost use Rattle.workload.specs.Load.{behind_row, patches_of, row_drawn, rows_drawn, target_of};
ghost use Rattle.workload.specs.Numbers.{behind};
ghost use Rattle.workload.specs.Room.{HasRoom};

use crate::numbers::Numbers;
use fuun_base::{Base, BaseList, NoMemory};
use patch_text::{AddError, PatchFile};
use std::alloc::Global;

/// The most bases that a row puts.
const MOST_PUT: usize = 7;

/// A DNA and patches for it.
#[derive(Debug, Drop)]
pub struct Load {
    pub target: BaseList,
    pub patches: PatchFile,
}

/// Draws a target of `size` bases from a seed, and then an edit a round, each for the length that those before it
/// leave. A turn of the state x leaves `(1103515245 * x + 12345) mod 2^31` and gives the upper 15 of its 31 bits; a
/// draw takes two turns.
pub fn make(alloc: Global, seed: u64, size: u64, rounds: u64) -> Result<Load, NoMemory>
    requires seed { seed < 2 ^ 31 }
    requires size { size ≤ 2 ^ 24 }
    requires rounds { rounds ≤ 2 ^ 16 }
    ensures target { IfOk result (λ load. load.target ≡ target_of seed size) }
    ensures patches { IfOk result (λ load. load.patches ≡ patches_of seed size rounds) }
    ensures fits { IfOk result (λ load. AllFit size load.patches.rows) }
{
    let mut numbers = Numbers::new(seed);
    let mut target = vec![in alloc; Base::I; size as usize]?;
    numbers.fill(&mut target);
    Ok(Load {
        target: BaseList::from_vec(alloc, target)?,
        patches: draw_patches(alloc, &mut numbers, size, rounds)?,
    })
}

// Draws a row for each round.
fn draw_patches(
    alloc: Global,
    numbers: &mut Numbers,
    size: u64,
    rounds: u64,
) -> Result<PatchFile, NoMemory>
    requires size { size ≤ 2 ^ 24 }
    requires rounds { rounds ≤ 2 ^ 16 }
    ensures { IfOk result (λ patches. patches ≡ record { stated = size; rows = rows_drawn rounds size numbers.old }) }
{
    let mut patches = PatchFile::new(alloc, size);
    let mut len = size;
    for round in 0..rounds {
        len = draw_row(numbers, len, &mut patches)?;
    }
    Ok(patches)
}

// Draws a row for a DNA of `len` bases and adds it. Answers the length that the row leaves.
fn draw_row(numbers: &mut Numbers, len: u64, patches: &mut PatchFile) -> Result<u64, NoMemory>
    requires len { len ≤ 2 ^ 25 }
    requires room { HasRoom patches.old }
    ensures added { OnOk result (patches.new ≡ with_row patches.old (row_drawn len numbers.old)) }
    ensures len { IfOk result (λ next. next ≡ length_after len (row_drawn len numbers.old)) }
    ensures state { OnOk result (numbers.new ≡ behind_row len numbers.old) }
{
    let place = numbers.draw(len + 1);
    let cut = numbers.draw(16).min(len - place);
    let count = numbers.draw(8);
    let mut put = [Base::I; MOST_PUT];
    let put = &mut put[..count as usize];
    numbers.fill(put);
    add(patches, place, cut, put)?;
    Ok(len - cut + count)
}

fn add(patches: &mut PatchFile, place: u64, cut: u64, put: &[Base]) -> Result<(), NoMemory>
    requires { is_bounded (with_row patches.old (Edit place cut put.now)) ≡ true }
    ensures { OnOk result (patches.new ≡ with_row patches.old (Edit place cut put.now)) }
{
    match patches.add(place, cut, put) {
        Ok(()) => Ok(()),
        Err(AddError::NoMemory) => Err(NoMemory),
        Err(AddError::TooLarge) => unreachable!(),
    }
}
