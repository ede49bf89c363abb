//! How long the code of an item is.
ghost use Rattle.std.specs.Prelude.{◌≡◌, ◌≤◌, length};
ghost use Rattle.fuun_base.specs.Quote.{asnat, quote_of};
ghost use Rattle.dna_items.specs.Held.{held};
ghost use Rattle.dna_items.specs.declared.items.PatItem.TheVariants.{Search, Skip};
ghost use Rattle.dna_reader.specs.Codes.{pattern_item_code, template_item_code};

use dna_items::{BIG, PatItem, TplItem};
use fuun_base::{Base, Tally};

/// How many bases the code of an item of a pattern has, held at 2^63.
#[tactic(auto, unfolding(dna_items::specs::Held::held))]
pub fn pattern_item_len(item: &PatItem) -> u64
    ensures { result ≡ held (length (pattern_item_code item.now)) }
{
    match item {
        PatItem::Base(base) => base_len(*base),
        PatItem::Skip(n) => skip_len(*n),
        PatItem::Search(bases) => search_len(bases.as_slice()),
        PatItem::GroupStart | PatItem::GroupStop => 3,
    }
}

/// How many bases the code of an item of a template has.
pub fn template_item_len(item: TplItem) -> u64
    ensures len { result ≡ length (template_item_code item) }
    ensures most { result ≤ 132 }
{
    match item {
        TplItem::Base(base) => base_len(base),
        TplItem::Group { n, level } => 2 + number_len(level) + number_len(n),
        TplItem::Len(n) => 3 + number_len(n),
    }
}

/// How many bases the code of a skip has.
pub fn skip_len(n: u64) -> u64
    ensures len { result ≡ length (pattern_item_code (Skip n)) }
    ensures most { result ≤ 67 }
{
    2 + number_len(n)
}

// A number's binary digits, and the P behind them.
fn number_len(n: u64) -> u64
    ensures len { result ≡ length (asnat n) }
    ensures most { result ≤ 65 }
{
    u64::from(u64::BITS - n.leading_zeros()) + 1
}

fn base_len(base: Base) -> u64
    ensures len { result ≡ length (quote_of base) }
    ensures most { result ≤ 2 }
{
    if base == Base::P { 2 } else { 1 }
}

#[tactic(auto, unfolding(dna_items::specs::Held::held))]
fn search_len(bases: &[Base]) -> u64
    ensures { result ≡ held (length (pattern_item_code (Search bases.now))) }
{
    let len = bases.len() as u128 + u128::from(Tally::of(bases).p) + 3;
    len.min(u128::from(BIG)) as u64
}
