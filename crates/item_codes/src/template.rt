//! Templates as DNA.
ghost use Rattle.std.specs.Prelude.{◌≡◌, ◌++◌, OnOk};
ghost use Rattle.dna_items.specs.declared.items.TplItem.TheVariants.{Group, Len};
ghost use Rattle.dna_reader.specs.Codes.{template_code, template_item_code};

use dna_items::{TplItem, TplList};
use fuun_base::{Base, NoMemory, asnat_into, quote_into};

/// Appends the items of a template, without an end.
pub fn put_template(items: &TplList, out: &mut Vec<Base>) -> Result<(), NoMemory>
    ensures { OnOk result (out.new.items ≡ out.old.items ++ template_code items.now) }
{
    for item in items.as_slice() {
        put_template_item(*item, out)?;
    }
    Ok(())
}

/// Appends an item of a template.
pub fn put_template_item(item: TplItem, out: &mut Vec<Base>) -> Result<(), NoMemory>
    ensures { OnOk result (out.new.items ≡ out.old.items ++ template_item_code item) }
{
    match item {
        TplItem::Base(base) => quote_into(&[base], out),
        TplItem::Group { n, level } => put_group(n, level, out),
        TplItem::Len(n) => put_group_len(n, out),
    }
}

// Appends the code of a reference to a group: its level stands before it.
fn put_group(n: u64, level: u64, out: &mut Vec<Base>) -> Result<(), NoMemory>
    ensures { OnOk result (out.new.items ≡ out.old.items ++ template_item_code (Group n level)) }
{
    out.extend_from_slice(&[Base::I, Base::F])?;
    asnat_into(level, out)?;
    asnat_into(n, out)
}

fn put_group_len(n: u64, out: &mut Vec<Base>) -> Result<(), NoMemory>
    ensures { OnOk result (out.new.items ≡ out.old.items ++ template_item_code (Len n)) }
{
    out.extend_from_slice(&[Base::I, Base::I, Base::P])?;
    asnat_into(n, out)
}
