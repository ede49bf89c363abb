//! How long the codes of pieces are, whether they are kept or not.
ghost use Rattle.std.specs.Prelude.{◌≡◌, ℕ, ◌+◌, ◌*◌, ◌^◌, ◌∷◌, ◌++◌, [], true, List as ListOf, map, min, IfOk};
ghost use Rattle.dna_items.specs.Held.{held};
ghost use Rattle.source_text.specs.declared.pieces.Item.TheVariants.{Search};
ghost use Rattle.source_text.specs.declared.pieces.Piece.{Piece as PieceOf};
ghost use Rattle.source_text.specs.Measured.{IsMeasured, fixed_len, repeated_skip, skips_in};
ghost use Rattle.source_text.specs.Pieces.{are_bases, bases_of, pattern_item, piece_at, times};

use crate::pieces::{Item, copied_bases, template_item};
use dna_items::{BIG, PatItem};
use fuun_base::NoMemory;
use item_codes::{pattern_item_len, template_item_len};
use source_items::{CountedSkip, copied_sum};
use std::alloc::Global;

/// How long the codes of pieces are, each number held at 2^63.
#[derive(Drop)]
pub(crate) struct Measure {
    /// In a pattern, without its skips.
    pub(crate) pattern: u64,
    /// In a template.
    pub(crate) template: u64,
    /// As bases that stand for themselves.
    pub(crate) plain: u64,
    /// The skips, each with how often it stands there.
    pub(crate) skips: Vec<CountedSkip>,
}

impl Measure {
    /// Of no pieces.
    pub(crate) fn none(alloc: Global) -> Measure
        ensures { IsMeasured result [] }
    {
        Measure {
            pattern: 0,
            template: 0,
            plain: 0,
            skips: Vec::new(alloc),
        }
    }

    /// Of one piece.
    pub(crate) fn one(alloc: Global, item: &Item) -> Result<Measure, NoMemory>
        ensures { IfOk result (λ measure. (at : ℕ) → IsMeasured measure (piece_at at item.now ∷ [])) }
    {
        let skips = skips_in(alloc, item)?;
        Ok(Measure {
            pattern: fixed_len(alloc, item)?,
            template: template_item_len(template_item(item)),
            plain: 1,
            skips,
        })
    }

    /// Of the search for bases.
    pub(crate) fn search(&self, alloc: Global) -> Measure
        ensures { (x : ListOf PieceOf) (at : ℕ) → are_bases x ≡ true → IsMeasured self.now x → IsMeasured result (piece_at at (Search (bases_of x)) ∷ []) }
    {
        Measure {
            pattern: held_sum(self.pattern, 3),
            template: 1,
            plain: 1,
            skips: Vec::new(alloc),
        }
    }

    /// Of pieces behind others.
    pub(crate) fn and(self, other: Measure) -> Result<Measure, NoMemory>
        ensures { IfOk result (λ measure. (x y : ListOf PieceOf) → IsMeasured self x → IsMeasured other y → IsMeasured measure (x ++ y)) }
    {
        let mut skips = self.skips;
        let mut others = other.skips;
        skips.append(&mut others)?;
        Ok(Measure {
            pattern: held_sum(self.pattern, other.pattern),
            template: held_sum(self.template, other.template),
            plain: held_sum(self.plain, other.plain),
            skips,
        })
    }

    /// Of pieces so many times.
    pub(crate) fn repeated(&self, alloc: Global, n: u64) -> Result<Measure, NoMemory>
        ensures { IfOk result (λ measure. (x : ListOf PieceOf) → IsMeasured self.now x → IsMeasured measure (times n x)) }
    {
        if n == 0 {
            return Ok(Measure::none(alloc));
        }
        let skips = repeated_skips(alloc, self.skips.as_slice(), n)?;
        Ok(Measure {
            pattern: held_product(self.pattern, n),
            template: held_product(self.template, n),
            plain: held_product(self.plain, n),
            skips,
        })
    }
}

// How long the code of an item is in a pattern, where it is no skip with a sum.
#[tactic(auto, unfolding(dna_items::specs::Held::held))]
fn fixed_len(alloc: Global, item: &Item) -> Result<u64, NoMemory>
    ensures { IfOk result (λ len. len ≡ held (fixed_len (pattern_item item.now))) }
{
    match item {
        Item::Base(base) => Ok(pattern_item_len(&PatItem::Base(*base))),
        Item::Search(bases) => {
            let search = PatItem::Search(copied_bases(alloc, bases)?);
            Ok(pattern_item_len(&search))
        }
        Item::Skip(_) => Ok(0),
        Item::Start | Item::Stop => Ok(3),
        Item::Group { .. } | Item::Len(_) | Item::Given(_) => Ok(1),
    }
}

// The skip that an item is, if it is one.
fn skips_in(alloc: Global, item: &Item) -> Result<Vec<CountedSkip>, NoMemory>
    ensures { IfOk result (λ skips. skips.items ≡ skips_in item.now) }
{
    let mut skips = Vec::new(alloc);
    if let Item::Skip(sum) = item {
        let sum = copied_sum(alloc, sum)?;
        skips.push(CountedSkip { count: 1, sum })?;
    }
    Ok(skips)
}

// Skips, each standing so many times as often.
fn repeated_skips(
    alloc: Global,
    skips: &[CountedSkip],
    n: u64,
) -> Result<Vec<CountedSkip>, NoMemory>
    ensures { IfOk result (λ repeated. repeated.items ≡ map (repeated_skip n) skips.now) }
{
    let mut repeated = Vec::new(alloc);
    'skips: for skip in skips {
        let sum = copied_sum(alloc, &skip.sum)?;
        repeated.push(CountedSkip {
            count: held_product(skip.count, n),
            sum,
        })?;
    }
    Ok(repeated)
}

pub(crate) fn held_sum(a: u64, b: u64) -> u64
    ensures { result ≡ min (a + b) (2 ^ 63) }
{
    a.saturating_add(b).min(BIG)
}

pub(crate) fn held_product(a: u64, b: u64) -> u64
    ensures { result ≡ min (a * b) (2 ^ 63) }
{
    (u128::from(a) * u128::from(b)).min(u128::from(BIG)) as u64
}
