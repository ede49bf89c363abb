//! Lists of pieces as they are kept: one longer than the limit by its length alone.
ghost use Rattle.std.specs.Prelude.{◌≡◌, ℕ, ◌+◌, ◌*◌, ◌^◌, ◌≤◌, ◌==◌, ◌&&◌, ◌||◌, ◌∷◌, ◌++◌, List, [], true, if◌then◌else◌, flat_map, map, min, IfOk};
ghost use Rattle.source_text.specs.declared.pieces.Item.TheVariants.{Search};
ghost use Rattle.source_text.specs.declared.pieces.Piece.{Piece as PieceOf};
ghost use Rattle.source_text.specs.Keeping.{AreHeld, IsHeld};
ghost use Rattle.source_text.specs.Pieces.{base_item, bases_of, filled_item, given_at, is_base_item, item_size, piece_at, placed, times};

use crate::measure::{Measure, held_product, held_sum};
use crate::pieces::{Item, Piece, append_copies, copied};
use fuun_base::{Base, BaseList, NoMemory};
use std::alloc::Global;

/// Pieces, one behind the other.
#[derive(Drop)]
pub(crate) struct Held {
    /// The pieces, or none where there are more than the limit.
    pub(crate) items: Vec<Piece>,
    /// How many they are, held at 2^63.
    pub(crate) count: u64,
    /// Whether all of them are bases.
    pub(crate) bases: bool,
    /// How long their codes are.
    pub(crate) measure: Measure,
}

/// No pieces.
pub(crate) fn no_pieces(alloc: Global) -> Held
    ensures { (limit : ℕ) → IsHeld limit result [] }
{
    Held {
        items: Vec::new(alloc),
        count: 0,
        bases: true,
        measure: Measure::none(alloc),
    }
}

/// One piece.
pub(crate) fn one_piece(alloc: Global, limit: u64, piece: Piece) -> Result<Held, NoMemory>
    requires { limit ≤ 2 ^ 40 }
    ensures { IfOk result (λ held. IsHeld limit held (piece ∷ [])) }
{
    let count = item_size(&piece.item);
    let bases = is_base_item(&piece.item);
    let measure = Measure::one(alloc, &piece.item)?;
    let items = kept_piece(alloc, piece, count <= limit)?;
    Ok(Held {
        items,
        count,
        bases,
        measure,
    })
}

// How much a piece counts, held at 2^63.
fn item_size(item: &Item) -> u64
    ensures { result ≡ min (item_size item.now) (2 ^ 63) }
{
    match item {
        Item::Search(bases) => held_sum(bases.len() as u64, 1),
        _ => 1,
    }
}

fn is_base_item(item: &Item) -> bool
    ensures { result ≡ is_base_item item.now }
{
    matches!(item, Item::Base(_))
}

/// The search for bases, at its place.
pub(crate) fn search_piece(
    alloc: Global,
    limit: u64,
    found: &Held,
    at: u64,
) -> Result<Held, NoMemory>
    requires low { limit ≤ 2 ^ 40 }
    requires bases { found.now.bases ≡ true }
    ensures { IfOk result (λ held. (x : List PieceOf) → IsHeld limit found.now x → IsHeld limit held (piece_at at (Search (bases_of x)) ∷ [])) }
{
    let count = held_sum(found.count, 1);
    let bases = bases_of(alloc, found.items.as_slice())?;
    let piece = Piece {
        item: Item::Search(bases),
        at,
    };
    let items = kept_piece(alloc, piece, count <= limit)?;
    Ok(Held {
        items,
        count,
        bases: false,
        measure: found.measure.search(alloc),
    })
}

// The bases of pieces.
pub(crate) fn bases_of(alloc: Global, pieces: &[Piece]) -> Result<BaseList, NoMemory>
    ensures { IfOk result (λ bases. bases ≡ bases_of pieces.now) }
{
    let mut bases = Vec::with_capacity(alloc, pieces.len())?;
    'pieces: for piece in pieces {
        bases.push(base_of(&piece.item))?;
    }
    let list = BaseList::from_vec(alloc, bases)?;
    Ok(list)
}

fn base_of(item: &Item) -> Base
    ensures { result ≡ base_item item.now }
{
    match item {
        Item::Base(base) => *base,
        _ => Base::I,
    }
}

fn kept_piece(alloc: Global, piece: Piece, keep: bool) -> Result<Vec<Piece>, NoMemory>
    ensures { IfOk result (λ items. items.items ≡ (if keep then piece ∷ [] else [])) }
{
    let mut items = Vec::new(alloc);
    if !keep {
        return Ok(items);
    }
    items.push(piece)?;
    Ok(items)
}

/// Pieces behind others.
pub(crate) fn both(alloc: Global, limit: u64, a: Held, b: Held) -> Result<Held, NoMemory>
    requires { limit ≤ 2 ^ 40 }
    ensures { IfOk result (λ held. (x y : List PieceOf) → IsHeld limit a x → IsHeld limit b y → IsHeld limit held (x ++ y)) }
{
    let count = held_sum(a.count, b.count);
    let bases = are_both(a.bases, b.bases);
    let measure = a.measure.and(b.measure)?;
    let items = joined(alloc, a.items, b.items, count <= limit)?;
    Ok(Held {
        items,
        count,
        bases,
        measure,
    })
}

fn are_both(a: bool, b: bool) -> bool
    ensures { result ≡ (a && b) }
{
    a && b
}

fn joined(
    alloc: Global,
    mut a: Vec<Piece>,
    mut b: Vec<Piece>,
    keep: bool,
) -> Result<Vec<Piece>, NoMemory>
    ensures { IfOk result (λ items. items.items ≡ (if keep then a.items ++ b.items else [])) }
{
    if !keep {
        return Ok(Vec::new(alloc));
    }
    a.append(&mut b)?;
    Ok(a)
}

/// A copy of pieces behind others.
pub(crate) fn both_copied(alloc: Global, limit: u64, a: Held, b: &Held) -> Result<Held, NoMemory>
    requires { limit ≤ 2 ^ 40 }
    ensures { IfOk result (λ held. (x y : List PieceOf) → IsHeld limit a x → IsHeld limit b.now y → IsHeld limit held (x ++ y)) }
{
    let count = held_sum(a.count, b.count);
    let bases = are_both(a.bases, b.bases);
    let measure = a.measure.and(b.measure.repeated(alloc, 1)?)?;
    let items = joined_copies(alloc, a.items, b.items.as_slice(), count <= limit)?;
    Ok(Held {
        items,
        count,
        bases,
        measure,
    })
}

fn joined_copies(
    alloc: Global,
    mut a: Vec<Piece>,
    b: &[Piece],
    keep: bool,
) -> Result<Vec<Piece>, NoMemory>
    ensures { IfOk result (λ items. items.items ≡ (if keep then a.items ++ b.now else [])) }
{
    if !keep {
        return Ok(Vec::new(alloc));
    }
    append_copies(alloc, &mut a, b)?;
    Ok(a)
}

/// Pieces so many times.
pub(crate) fn repeated(alloc: Global, limit: u64, part: &Held, n: u64) -> Result<Held, NoMemory>
    requires { limit ≤ 2 ^ 40 }
    ensures { IfOk result (λ held. (x : List PieceOf) → IsHeld limit part.now x → IsHeld limit held (times n x)) }
{
    let count = held_product(part.count, n);
    let bases = are_all(n, part.bases);
    let measure = part.measure.repeated(alloc, n)?;
    let items = copies(alloc, part.items.as_slice(), n, count <= limit)?;
    Ok(Held {
        items,
        count,
        bases,
        measure,
    })
}

fn copies(alloc: Global, pieces: &[Piece], n: u64, keep: bool) -> Result<Vec<Piece>, NoMemory>
    ensures { IfOk result (λ items. items.items ≡ (if keep then times n pieces.now else [])) }
{
    let mut items = Vec::new(alloc);
    if !keep {
        return Ok(items);
    }
    if pieces.is_empty() {
        return Ok(items);
    }
    'copies: for _time in 0..n {
        append_copies(alloc, &mut items, pieces)?;
    }
    Ok(items)
}

fn are_all(n: u64, bases: bool) -> bool
    ensures { result ≡ (n == 0 || bases) }
{
    n == 0 || bases
}

/// Pieces at another place.
pub(crate) fn placed(at: u64, mut held: Held) -> Held
    ensures { (limit : ℕ) (x : List PieceOf) → IsHeld limit held x → IsHeld limit result (map (placed at) x) }
{
    place_all(at, held.items.as_mut_slice());
    held
}

fn place_all(at: u64, pieces: &mut [Piece])
    ensures { pieces.new ≡ map (placed at) pieces.old }
{
    'pieces: for piece in pieces.iter_mut() {
        piece.at = at;
    }
}

/// A definition's pieces with templates in the place of its parameters.
pub(crate) fn filled(
    alloc: Global,
    limit: u64,
    pieces: &[Piece],
    given: &[Held],
) -> Result<Held, NoMemory>
    requires { limit ≤ 2 ^ 40 }
    ensures { IfOk result (λ held. (lists : List (List PieceOf)) → AreHeld limit given.now lists → IsHeld limit held (flat_map (filled_item lists) pieces.now)) }
{
    let mut found = no_pieces(alloc);
    'pieces: for piece in pieces {
        found = with_piece(alloc, limit, found, piece, given)?;
    }
    Ok(found)
}

// With what stands for one more piece of a definition.
fn with_piece(
    alloc: Global,
    limit: u64,
    found: Held,
    piece: &Piece,
    given: &[Held],
) -> Result<Held, NoMemory>
    requires { limit ≤ 2 ^ 40 }
    ensures { IfOk result (λ held. (x : List PieceOf) (lists : List (List PieceOf)) → IsHeld limit found x → AreHeld limit given.now lists → IsHeld limit held (x ++ filled_item lists piece.now)) }
{
    match &piece.item {
        Item::Given(k) => with_given(alloc, limit, found, *k, given),
        _ => {
            let one = one_piece(alloc, limit, copied(alloc, piece)?)?;
            let held = both(alloc, limit, found, one)?;
            Ok(held)
        }
    }
}

// With the template that is given for the parameter at a place.
fn with_given(
    alloc: Global,
    limit: u64,
    found: Held,
    k: u64,
    given: &[Held],
) -> Result<Held, NoMemory>
    requires { limit ≤ 2 ^ 40 }
    ensures { IfOk result (λ held. (x : List PieceOf) (lists : List (List PieceOf)) → IsHeld limit found x → AreHeld limit given.now lists → IsHeld limit held (x ++ given_at lists k)) }
{
    if given.len() as u64 <= k {
        return Ok(found);
    }
    let held = both_copied(alloc, limit, found, &given[k as usize])?;
    Ok(held)
}
