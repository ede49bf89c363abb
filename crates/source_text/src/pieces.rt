//! Pieces: what names and sequences stand for.
ghost use Rattle.std.specs.Prelude.{◌≡◌, ◌++◌, IfOk, OnOk};
ghost use Rattle.source_text.specs.Pieces.{template_item};

use dna_items::TplItem;
use fuun_base::{Base, BaseList, NoMemory};
use source_items::{Sum, copied_sum};
use std::alloc::Global;

/// What a piece stands for.
#[derive(Debug, Drop)]
pub(crate) enum Item {
    Base(Base),
    /// The text of group `n`, quoted `level` times, in a template.
    Group { n: u64, level: u64 },
    /// The length of the text of a group, in a template.
    Len(u64),
    /// What a use gives for the parameter at this place, in a definition.
    Given(u64),
    /// A skip, in a pattern.
    Skip(Sum),
    /// A search, in a pattern.
    Search(BaseList),
    /// The start of a group, in a pattern.
    Start,
    /// The end of a group, in a pattern.
    Stop,
}

/// A piece of a sequence.
#[derive(Debug, Drop)]
pub(crate) struct Piece {
    pub(crate) item: Item,
    /// How many bytes of the source stand before the token that it comes from.
    pub(crate) at: u64,
}

/// Appends copies of pieces.
pub(crate) fn append_copies(
    alloc: Global,
    out: &mut Vec<Piece>,
    pieces: &[Piece],
) -> Result<(), NoMemory>
    ensures { OnOk result (out.new.items ≡ out.old.items ++ pieces.now) }
{
    'pieces: for piece in pieces {
        out.push(copied(alloc, piece)?)?;
    }
    Ok(())
}

/// A copy of a piece.
pub(crate) fn copied(alloc: Global, piece: &Piece) -> Result<Piece, NoMemory>
    ensures { IfOk result (λ copy. copy ≡ piece.now) }
{
    let item = copied_item(alloc, &piece.item)?;
    Ok(Piece { item, at: piece.at })
}

fn copied_item(alloc: Global, item: &Item) -> Result<Item, NoMemory>
    ensures { IfOk result (λ copy. copy ≡ item.now) }
{
    match item {
        Item::Base(base) => Ok(Item::Base(*base)),
        Item::Group { n, level } => Ok(Item::Group {
            n: *n,
            level: *level,
        }),
        Item::Len(n) => Ok(Item::Len(*n)),
        Item::Given(k) => Ok(Item::Given(*k)),
        Item::Skip(sum) => Ok(Item::Skip(copied_sum(alloc, sum)?)),
        Item::Search(bases) => Ok(Item::Search(copied_bases(alloc, bases)?)),
        Item::Start => Ok(Item::Start),
        Item::Stop => Ok(Item::Stop),
    }
}

pub(crate) fn copied_bases(alloc: Global, bases: &BaseList) -> Result<BaseList, NoMemory>
    ensures { IfOk result (λ copy. copy ≡ bases.now) }
{
    let copy = BaseList::from_vec(alloc, Vec::from_slice(alloc, bases.as_slice())?)?;
    Ok(copy)
}

/// The item of a template. Other pieces than those of templates do not come into one.
pub(crate) fn template_item(item: &Item) -> TplItem
    ensures { result ≡ template_item item.now }
{
    match item {
        Item::Base(base) => TplItem::Base(*base),
        Item::Group { n, level } => TplItem::Group {
            n: *n,
            level: *level,
        },
        Item::Len(n) => TplItem::Len(*n),
        _ => TplItem::Base(Base::I),
    }
}
