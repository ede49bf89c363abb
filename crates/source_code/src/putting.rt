//! Lines as DNA.
ghost use Rattle.std.specs.Prelude.{◌≡◌, ◌++◌, ◌^◌, ◌≤◌, replicate, true, OnOk};
ghost use Rattle.std.specs.List.{list_all};
ghost use Rattle.dna_items.specs.declared.items.PatItem.TheVariants.{Skip};
ghost use Rattle.dna_reader.specs.Codes.{pair_code, pattern_code, pattern_item_code};
ghost use Rattle.source_items.specs.Lines.{are_small, is_small, is_small_item, item_of, line_code, line_len, pattern_of};
ghost use Rattle.source_items.specs.Values.{sum_value};

use crate::behind::Behind;
use crate::values::sum_value;
use dna_items::TplList;
use fuun_base::{Base, NoMemory};
use item_codes::{put_end, put_pattern_item, put_skip, put_template};
use source_items::{Line, Product, SourceItem};

/// Appends the code of a line of `own` bases.
pub(crate) fn put_line(
    own: u64,
    behind: &Behind,
    line: &Line,
    out: &mut Vec<Base>,
) -> Result<(), NoMemory>
    requires small { are_small own behind.now line.now ≡ true }
    requires length { own ≡ line_len own behind.now line.now }
    requires most { own ≤ 2 ^ 40 }
    ensures { OnOk result (out.new.items ≡ out.old.items ++ line_code own behind.now line.now) }
{
    match line {
        Line::Plain(bases) => {
            out.extend_from_slice(bases.as_slice())?;
            Ok(())
        }
        Line::Pair { pattern, template } => put_pair(
            own,
            behind,
            pattern.as_slice(),
            template,
            out,
        ),
        Line::Long { .. } => put_long(own, out),
    }
}

fn put_pair(
    own: u64,
    behind: &Behind,
    pattern: &[SourceItem],
    template: &TplList,
    out: &mut Vec<Base>,
) -> Result<(), NoMemory>
    requires { list_all (is_small_item own behind.now) pattern.now ≡ true }
    ensures { OnOk result (out.new.items ≡ out.old.items ++ pair_code (pattern_of own behind.now pattern.now) template.now) }
{
    put_pattern(own, behind, pattern, out)?;
    put_end(out)?;
    put_template(template, out)?;
    put_end(out)
}

fn put_pattern(
    own: u64,
    behind: &Behind,
    items: &[SourceItem],
    out: &mut Vec<Base>,
) -> Result<(), NoMemory>
    requires { list_all (is_small_item own behind.now) items.now ≡ true }
    ensures { OnOk result (out.new.items ≡ out.old.items ++ pattern_code (pattern_of own behind.now items.now)) }
{
    for item in items {
        put_item(own, behind, item, out)?;
    }
    Ok(())
}

fn put_item(
    own: u64,
    behind: &Behind,
    item: &SourceItem,
    out: &mut Vec<Base>,
) -> Result<(), NoMemory>
    requires { is_small_item own behind.now item.now ≡ true }
    ensures { OnOk result (out.new.items ≡ out.old.items ++ pattern_item_code (item_of own behind.now item.now)) }
{
    match item {
        SourceItem::Fixed(item) => put_pattern_item(item, out),
        SourceItem::Skip(sum) => put_sum(own, behind, sum.as_slice(), out),
    }
}

fn put_sum(own: u64, behind: &Behind, sum: &[Product], out: &mut Vec<Base>) -> Result<(), NoMemory>
    requires { is_small own behind.now sum.now ≡ true }
    ensures { OnOk result (out.new.items ≡ out.old.items ++ pattern_item_code (Skip (sum_value own behind.now sum.now))) }
{
    put_skip(sum_value(own, behind, sum), out)
}

// Any bases stand for the code of a long line.
fn put_long(len: u64, out: &mut Vec<Base>) -> Result<(), NoMemory>
    requires { len ≤ 2 ^ 40 }
    ensures { OnOk result (out.new.items ≡ out.old.items ++ replicate len Base.I) }
{
    let len = len as usize;
    out.reserve(len)?;
    out.resize(out.len() + len, Base::I)?;
    Ok(())
}
