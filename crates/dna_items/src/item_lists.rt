ghost use Rattle.std.specs.Prelude.{◌≡◌, ◌↔◌, ◌+◌, ◌<◌, IsTrue, MatchOption};
ghost use Rattle.dna_items.specs.Balance.{IsBalanced, start_of, stop_of};

use crate::{PatItem, TplItem};
use fuun_base::List;

/// The items of a pattern.
pub type PatList = List<PatItem>;

/// The items of a template.
pub type TplList = List<TplItem>;

/// What can be asked of a pattern's group starts and group ends.
pub trait Balanced {
    ghost use Rattle.std.specs.Prelude.{List as ListOf};
    ghost use Rattle.dna_items.specs.declared.items.PatItem.{PatItem};

    ghost pattern: { Self → ListOf PatItem };

    /// Whether each group end has its group start before it, and no group start is left over.
    fn is_balanced(&self) -> bool
        ensures { IsTrue result ↔ IsBalanced (pattern self.now) };
}

impl Balanced for PatList {
    ghost pattern = { λ list. list };

    fn is_balanced(&self) -> bool {
        let mut depth = 0;
        for item in self.as_slice() {
            let Some(next) = depth_after(depth, item) else {
                return false;
            };
            depth = next;
        }
        depth == 0
    }
}

/// How many groups are open behind an item, by how many are open before it: None where it ends a group and none is open.
fn depth_after(depth: usize, item: &PatItem) -> Option<usize>
    requires { depth < usize.MAX }
    ensures { MatchOption result (depth + start_of item.now < stop_of item.now) (λ next. next + stop_of item.now ≡ depth + start_of item.now) }
{
    match item {
        PatItem::GroupStart => Some(depth + 1),
        PatItem::GroupStop => depth.checked_sub(1),
        PatItem::Base(_) | PatItem::Skip(_) | PatItem::Search(_) => Some(depth),
    }
}
