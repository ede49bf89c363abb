//! Lines of what sequences stand for.
ghost use Rattle.std.specs.Prelude.{◌≡◌, ◌^◌, ◌≤◌, ◌<◌, ◌||◌, List as ListOf, nat_lt, IfOk};
ghost use Rattle.source_items.specs.declared.lines.Line.TheVariants.{Long, Pair as PairLine, Plain as PlainLine};
ghost use Rattle.source_items.specs.Held.{IsHeld as IsHeldLine};
ghost use Rattle.source_text.specs.declared.pieces.Piece.{Piece as PieceOf};
ghost use Rattle.source_text.specs.Keeping.{IsHeld};
ghost use Rattle.source_text.specs.Pieces.{bases_of, pattern_item, pattern_of, template_of};

use crate::held::{Held, bases_of};
use crate::measure::held_sum;
use crate::pieces::{Item, Piece, copied_bases, template_item};
use dna_items::{PatItem, TplList};
use fuun_base::{Base, List, NoMemory};
use source_items::{CountedSkip, Line, SourceItem, copied_sum};
use std::alloc::Global;

/// The line of a pattern and a template.
pub(crate) fn pair_line(
    alloc: Global,
    limit: u64,
    pattern: Held,
    template: Held,
) -> Result<Line, NoMemory>
    requires { limit ≤ 2 ^ 40 }
    ensures { IfOk result (λ line. (x y : ListOf PieceOf) → IsHeld limit pattern x → IsHeld limit template y → IsHeldLine limit (PairLine (pattern_of x) (template_of y)) line) }
{
    if is_past(limit, &pattern, &template) {
        let len = held_sum(
            held_sum(pattern.measure.pattern, template.measure.template),
            6,
        );
        // The skips are not in `len`, but no code of a pattern is shorter than it counts.
        let least = len.max(pattern.count);
        let line = long_line(limit, pattern.measure.skips, len, least)?;
        return Ok(line);
    }
    let items = pattern_of(alloc, pattern.items.as_slice())?;
    let template = template_of(alloc, template.items.as_slice())?;
    Ok(Line::Pair {
        pattern: items,
        template,
    })
}

// Whether a pattern or a template is not kept.
fn is_past(limit: u64, pattern: &Held, template: &Held) -> bool
    ensures { result ≡ (nat_lt limit pattern.now.count || nat_lt limit template.now.count) }
{
    pattern.count > limit || template.count > limit
}

// A line of these skips whose code has so many bases besides, and at least so many in all. No reading comes to one that is
// within the limit.
fn long_line(limit: u64, skips: Vec<CountedSkip>, len: u64, least: u64) -> Result<Line, NoMemory>
    ensures line { IfOk result (λ line. line ≡ Long skips.items len) }
    ensures past { IfOk result (λ line. limit < least) }
{
    if least <= limit {
        return Err(NoMemory);
    }
    Ok(Line::Long {
        skips: List::from_vec(skips),
        len,
    })
}

// The items of a pattern.
fn pattern_of(alloc: Global, pieces: &[Piece]) -> Result<List<SourceItem>, NoMemory>
    ensures { IfOk result (λ items. items ≡ pattern_of pieces.now) }
{
    let mut items = List::new(alloc);
    'pieces: for piece in pieces {
        items.push(pattern_item(alloc, &piece.item)?)?;
    }
    Ok(items)
}

// The item of a pattern. Other pieces than those of patterns do not come into one.
fn pattern_item(alloc: Global, item: &Item) -> Result<SourceItem, NoMemory>
    ensures { IfOk result (λ made. made ≡ pattern_item item.now) }
{
    match item {
        Item::Base(base) => Ok(SourceItem::Fixed(PatItem::Base(*base))),
        Item::Skip(sum) => Ok(SourceItem::Skip(copied_sum(alloc, sum)?)),
        Item::Search(bases) => Ok(SourceItem::Fixed(PatItem::Search(copied_bases(alloc, bases)?))),
        Item::Start => Ok(SourceItem::Fixed(PatItem::GroupStart)),
        Item::Stop => Ok(SourceItem::Fixed(PatItem::GroupStop)),
        Item::Group { .. } | Item::Len(_) | Item::Given(_) => {
            Ok(SourceItem::Fixed(PatItem::Base(Base::I)))
        }
    }
}

// The items of a template.
fn template_of(alloc: Global, pieces: &[Piece]) -> Result<TplList, NoMemory>
    ensures { IfOk result (λ items. items ≡ template_of pieces.now) }
{
    let mut items = TplList::new(alloc);
    'pieces: for piece in pieces {
        items.push(template_item(&piece.item))?;
    }
    Ok(items)
}

/// The line of data.
pub(crate) fn plain_line(alloc: Global, limit: u64, bases: Held) -> Result<Line, NoMemory>
    requires { limit ≤ 2 ^ 40 }
    ensures { IfOk result (λ line. (x : ListOf PieceOf) → IsHeld limit bases x → IsHeldLine limit (PlainLine (bases_of x)) line) }
{
    if bases.count > limit {
        let len = bases.measure.plain;
        let line = long_line(limit, Vec::new(alloc), len, len)?;
        return Ok(line);
    }
    let list = bases_of(alloc, bases.items.as_slice())?;
    Ok(Line::Plain(list))
}
