//! Patterns that no DNA has.
ghost use Rattle.std.specs.Prelude.{◌≡◌, ◌<◌, ◌≤◌, ◌^◌, List, false};
ghost use Rattle.source_text.specs.declared.pieces.Piece.{Piece as PieceOf};
ghost use Rattle.source_text.specs.Judging.{behind_piece, is_search, no_code, no_code_within, refuses};
ghost use Rattle.source_text.specs.Keeping.{IsHeld};

use crate::held::Held;
use crate::pieces::{Item, Piece};

// The place of the first piece of a pattern for which no DNA has it: the end of no group, or a base directly behind a
// search; else that of the arrow, where a group is still open.
fn no_code(arrow: u64, pieces: &[Piece]) -> Option<u64>
    ensures { result ≡ no_code arrow 0 false pieces.now }
{
    let mut groups = 0;
    let mut search = false;
    'pieces: for piece in pieces {
        if refuses(groups, search, &piece.item) {
            return Some(piece.at);
        }
        groups = behind_piece(groups, &piece.item);
        search = is_search(&piece.item);
    }
    if groups == 0 { None } else { Some(arrow) }
}

/// The place of the first piece of a pattern for which no DNA has it, or that of the arrow, where a group is still open. A
/// pattern that counts more than the limit is not judged, since its code is never made.
pub(crate) fn no_code_within(limit: u64, arrow: u64, held: &Held) -> Option<u64>
    requires { limit ≤ 2 ^ 40 }
    ensures { (pieces : List PieceOf) → IsHeld limit held.now pieces → result ≡ no_code_within limit arrow pieces }
{
    if limit < held.count {
        return None;
    }
    no_code(arrow, held.items.as_slice())
}

// Whether a piece does not serve behind so many open groups, or behind a search.
fn refuses(groups: usize, search: bool, item: &Item) -> bool
    ensures { result ≡ refuses groups search item.now }
{
    match item {
        Item::Base(_) => search,
        Item::Stop => groups == 0,
        _ => false,
    }
}

// How many groups are open behind a piece.
fn behind_piece(groups: usize, item: &Item) -> usize
    requires { groups < 2 ^ 63 }
    ensures { result ≡ behind_piece groups item.now }
{
    match item {
        Item::Start => groups + 1,
        Item::Stop => groups.saturating_sub(1),
        _ => groups,
    }
}

fn is_search(item: &Item) -> bool
    ensures { result ≡ is_search item.now }
{
    matches!(item, Item::Search(_))
}
