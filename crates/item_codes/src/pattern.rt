//! Patterns as DNA.
ghost use Rattle.std.specs.Prelude.{◌≡◌, ◌++◌, OnOk};
ghost use Rattle.dna_items.specs.declared.items.PatItem.TheVariants.{GroupStart, Search, Skip};
ghost use Rattle.dna_reader.specs.Codes.{end_code, pattern_code, pattern_item_code};

use dna_items::{PatItem, PatList};
use fuun_base::{Base, NoMemory, asnat_into, quote_into};

/// Appends the end of a pattern, of a template and of a group: the three are the same.
pub fn put_end(out: &mut Vec<Base>) -> Result<(), NoMemory>
    ensures { OnOk result (out.new.items ≡ out.old.items ++ end_code) }
{
    out.extend_from_slice(&[Base::I, Base::I, Base::C])?;
    Ok(())
}

/// Appends the items of a pattern, without an end.
pub fn put_pattern(items: &PatList, out: &mut Vec<Base>) -> Result<(), NoMemory>
    ensures { OnOk result (out.new.items ≡ out.old.items ++ pattern_code items.now) }
{
    for item in items.as_slice() {
        put_pattern_item(item, out)?;
    }
    Ok(())
}

/// Appends an item of a pattern.
pub fn put_pattern_item(item: &PatItem, out: &mut Vec<Base>) -> Result<(), NoMemory>
    ensures { OnOk result (out.new.items ≡ out.old.items ++ pattern_item_code item.now) }
{
    match item {
        PatItem::Base(base) => quote_into(&[*base], out),
        PatItem::Skip(n) => put_skip(*n, out),
        PatItem::Search(bases) => put_search(bases.as_slice(), out),
        PatItem::GroupStart => put_group_start(out),
        PatItem::GroupStop => put_end(out),
    }
}

/// Appends the skip of so many bases.
pub fn put_skip(n: u64, out: &mut Vec<Base>) -> Result<(), NoMemory>
    ensures { OnOk result (out.new.items ≡ out.old.items ++ pattern_item_code (Skip n)) }
{
    out.extend_from_slice(&[Base::I, Base::P])?;
    asnat_into(n, out)
}

/// Appends the start of a group.
pub fn put_group_start(out: &mut Vec<Base>) -> Result<(), NoMemory>
    ensures { OnOk result (out.new.items ≡ out.old.items ++ pattern_item_code GroupStart) }
{
    out.extend_from_slice(&[Base::I, Base::I, Base::P])?;
    Ok(())
}

fn put_search(bases: &[Base], out: &mut Vec<Base>) -> Result<(), NoMemory>
    ensures { OnOk result (out.new.items ≡ out.old.items ++ pattern_item_code (Search bases.now)) }
{
    out.extend_from_slice(&[Base::I, Base::F, Base::F])?;
    quote_into(bases, out)
}
