//! The part of a row.
ghost use Rattle.std.specs.Prelude.{◌≡◌, ◌+◌, ◌^◌, ◌≤◌, ◌++◌, true, OnOk};
ghost use Rattle.std.specs.List.{flat_map};
ghost use Rattle.patch_text.specs.Contents.{has_small_numbers};
ghost use Rattle.patch_compile.specs.Code.{copy_code, edit_code, move_code, range_code, reference, row_code, skip_group};

use dna_items::TplItem;
use fuun_base::{Base, NoMemory, quote_into};
use item_codes::{put_end, put_group_start, put_skip, put_template_item};
use patch_text::PatchRow;

/// Appends the part of a row before `behind` bases of further parts.
pub(crate) fn put_row(row: &PatchRow, behind: u64, out: &mut Vec<Base>) -> Result<(), NoMemory>
    requires small { has_small_numbers row.now ≡ true }
    requires few { behind ≤ 2 ^ 40 }
    ensures { OnOk result (out.new.items ≡ out.old.items ++ row_code row.now behind) }
{
    match row {
        PatchRow::Edit { place, cut, put } => put_edit(*place + behind, *cut, put.as_slice(), out),
        PatchRow::Copy {
            source,
            count,
            target,
        } => put_copy(*source, *count, *target, behind, out),
        PatchRow::Move {
            source,
            count,
            target,
        } => put_move(*source, *count, *target, behind, out),
    }
}

fn put_copy(
    source: u64,
    count: u64,
    target: u64,
    behind: u64,
    out: &mut Vec<Base>,
) -> Result<(), NoMemory>
    requires small { (source ≤ 2 ^ 40) × (count ≤ 2 ^ 40) × (target ≤ 2 ^ 40) }
    requires few { behind ≤ 2 ^ 40 }
    ensures { OnOk result (out.new.items ≡ out.old.items ++ copy_code source count target behind) }
{
    if target <= source {
        put_range(target + behind, source - target, count, &[0, 2, 1, 2], out)
    } else if source + count <= target {
        put_range(
            source + behind,
            count,
            target - source - count,
            &[0, 1, 2, 1],
            out,
        )
    } else {
        put_range(
            source + behind,
            target - source,
            source + count - target,
            &[0, 1, 1, 2, 2],
            out,
        )
    }
}

fn put_move(
    source: u64,
    count: u64,
    target: u64,
    behind: u64,
    out: &mut Vec<Base>,
) -> Result<(), NoMemory>
    requires small { (source ≤ 2 ^ 40) × (count ≤ 2 ^ 40) × (target ≤ 2 ^ 40) }
    requires few { behind ≤ 2 ^ 40 }
    ensures { OnOk result (out.new.items ≡ out.old.items ++ move_code source count target behind) }
{
    if target <= source {
        put_range(target + behind, source - target, count, &[0, 2, 1], out)
    } else {
        put_range(source + behind, count, target - source, &[0, 2, 1], out)
    }
}

fn put_edit(kept: u64, cut: u64, put: &[Base], out: &mut Vec<Base>) -> Result<(), NoMemory>
    ensures { OnOk result (out.new.items ≡ out.old.items ++ edit_code kept cut put.now) }
{
    put_skip_group(kept, out)?;
    put_skip(cut, out)?;
    put_end(out)?;
    put_reference(0, out)?;
    quote_into(put, out)?;
    put_end(out)
}

fn put_range(
    a: u64,
    b: u64,
    c: u64,
    references: &[u64],
    out: &mut Vec<Base>,
) -> Result<(), NoMemory>
    ensures { OnOk result (out.new.items ≡ out.old.items ++ range_code a b c references.now) }
{
    put_skip_group(a, out)?;
    put_skip_group(b, out)?;
    put_skip_group(c, out)?;
    put_end(out)?;
    put_references(references, out)?;
    put_end(out)
}

fn put_references(references: &[u64], out: &mut Vec<Base>) -> Result<(), NoMemory>
    ensures { OnOk result (out.new.items ≡ out.old.items ++ flat_map reference references.now) }
{
    'references: for group in references {
        put_reference(*group, out)?;
    }
    Ok(())
}

fn put_reference(group: u64, out: &mut Vec<Base>) -> Result<(), NoMemory>
    ensures { OnOk result (out.new.items ≡ out.old.items ++ reference group) }
{
    put_template_item(TplItem::Group { n: group, level: 0 }, out)
}

fn put_skip_group(n: u64, out: &mut Vec<Base>) -> Result<(), NoMemory>
    ensures { OnOk result (out.new.items ≡ out.old.items ++ skip_group n) }
{
    put_group_start(out)?;
    put_skip(n, out)?;
    put_end(out)
}
