//! How long the code of a line is, each length held at 2^63.
ghost use Rattle.std.specs.Prelude.{◌≡◌, ◌+◌, ◌*◌, true, false, length, MatchOption};
ghost use Rattle.std.specs.List.{list_all};
ghost use Rattle.dna_items.specs.Held.{held};
ghost use Rattle.dna_items.specs.declared.items.PatItem.TheVariants.{Skip};
ghost use Rattle.dna_reader.specs.Codes.{pair_code, pattern_code, pattern_item_code, template_code};
ghost use Rattle.source_items.specs.Lines.{are_small, is_small, is_small_item, is_small_skip, item_of, line_len, pattern_of, skips_len};
ghost use Rattle.source_items.specs.Values.{sum_value};
ghost use Rattle.source_code.specs.Lengths.{IsBig};
ghost use Rattle.source_code.specs.Kept.{IsFound};

use crate::behind::Behind;
use crate::values::{held, held_product, held_sum, small_value};
use dna_items::TplItem;
use item_codes::{pattern_item_len, skip_len, template_item_len};
use source_items::{CountedSkip, Line, Product, SourceItem};

/// The length of a line: None where one of its values is 2^63 or more.
pub(crate) fn own_len(behind: &Behind, line: &Line) -> Option<u64>
    ensures { MatchOption result (IsBig behind.now line.now) (λ own. IsFound behind.now line.now own) }
{
    let mut own = 0;
    loop {
        let len = line_len(own, behind, line)?;
        if len <= own {
            return Some(own);
        }
        own = len;
    }
}

// The length of a line's code in which a number stands for it: None where one of its values is 2^63 or more.
fn line_len(own: u64, behind: &Behind, line: &Line) -> Option<u64>
    ensures { MatchOption result (are_small own behind.now line.now ≡ false) (λ len. (are_small own behind.now line.now ≡ true) × (len ≡ held (line_len own behind.now line.now))) }
{
    match line {
        Line::Plain(bases) => Some(held(bases.len() as u128)),
        Line::Pair { pattern, template } => pair_len(
            own,
            behind,
            pattern.as_slice(),
            template.as_slice(),
        ),
        Line::Long { skips, len } => long_len(own, behind, *len, skips.as_slice()),
    }
}

fn pair_len(own: u64, behind: &Behind, pattern: &[SourceItem], template: &[TplItem]) -> Option<u64>
    ensures { MatchOption result (list_all (is_small_item own behind.now) pattern.now ≡ false) (λ len. (list_all (is_small_item own behind.now) pattern.now ≡ true) × (len ≡ held (length (pair_code (pattern_of own behind.now pattern.now) template.now)))) }
{
    let len = pattern_len(own, behind, pattern)?;
    Some(held_sum(held_sum(len, template_len(template)), 6))
}

fn pattern_len(own: u64, behind: &Behind, items: &[SourceItem]) -> Option<u64>
    ensures { MatchOption result (list_all (is_small_item own behind.now) items.now ≡ false) (λ len. (list_all (is_small_item own behind.now) items.now ≡ true) × (len ≡ held (length (pattern_code (pattern_of own behind.now items.now))))) }
{
    let mut len = 0;
    for item in items {
        len = held_sum(len, item_len(own, behind, item)?);
    }
    Some(len)
}

fn item_len(own: u64, behind: &Behind, item: &SourceItem) -> Option<u64>
    ensures { MatchOption result (is_small_item own behind.now item.now ≡ false) (λ len. (is_small_item own behind.now item.now ≡ true) × (len ≡ held (length (pattern_item_code (item_of own behind.now item.now))))) }
{
    match item {
        SourceItem::Fixed(item) => Some(pattern_item_len(item)),
        SourceItem::Skip(sum) => sum_len(own, behind, sum.as_slice()),
    }
}

// The length of the code of a skip.
fn sum_len(own: u64, behind: &Behind, sum: &[Product]) -> Option<u64>
    ensures { MatchOption result (is_small own behind.now sum.now ≡ false) (λ len. (is_small own behind.now sum.now ≡ true) × (len ≡ held (length (pattern_item_code (Skip (sum_value own behind.now sum.now)))))) }
{
    let value = small_value(own, behind, sum)?;
    Some(skip_len(value))
}

fn template_len(items: &[TplItem]) -> u64
    ensures { result ≡ held (length (template_code items.now)) }
{
    let mut len = 0;
    for item in items {
        len = held_sum(len, template_item_len(*item));
    }
    len
}

// The length of a long line of which `len` bases are no skips with sums.
fn long_len(own: u64, behind: &Behind, len: u64, skips: &[CountedSkip]) -> Option<u64>
    ensures { MatchOption result (list_all (is_small_skip own behind.now) skips.now ≡ false) (λ all. (list_all (is_small_skip own behind.now) skips.now ≡ true) × (all ≡ held (len + skips_len own behind.now skips.now))) }
{
    let others = skips_len(own, behind, skips)?;
    Some(held_sum(len, others))
}

fn skips_len(own: u64, behind: &Behind, skips: &[CountedSkip]) -> Option<u64>
    ensures { MatchOption result (list_all (is_small_skip own behind.now) skips.now ≡ false) (λ len. (list_all (is_small_skip own behind.now) skips.now ≡ true) × (len ≡ held (skips_len own behind.now skips.now))) }
{
    let mut len = 0;
    for skip in skips {
        len = held_sum(len, counted_len(own, behind, skip)?);
    }
    Some(len)
}

fn counted_len(own: u64, behind: &Behind, skip: &CountedSkip) -> Option<u64>
    ensures { MatchOption result (is_small_skip own behind.now skip.now ≡ false) (λ len. (is_small_skip own behind.now skip.now ≡ true) × (len ≡ held (skip.now.count * length (pattern_item_code (Skip (sum_value own behind.now skip.now.sum)))))) }
{
    if skip.count == 0 {
        return Some(0);
    }
    let len = sum_len(own, behind, skip.sum.as_slice())?;
    Some(held_product(skip.count, len))
}
