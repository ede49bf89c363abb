//! Patterns that DNA without RNA is read as.
ghost use Rattle.std.specs.Prelude.{◌≡◌, ◌↔◌, IsTrue};
ghost use Rattle.dna_reader.specs.Codes.{IsReadable, has_search_before_base, is_base, is_search};

use dna_items::{Balanced, PatItem, PatList};

/// Whether some DNA without RNA is read as a pattern.
pub fn is_readable(pattern: &PatList) -> bool
    ensures { IsTrue result ↔ IsReadable pattern.now }
{
    pattern.is_balanced() && !has_search_before_base(pattern.as_slice())
}

/// Whether some search stands directly before a base.
pub fn has_search_before_base(items: &[PatItem]) -> bool
    ensures { result ≡ has_search_before_base items.now }
{
    let mut behind_search = false;
    for item in items {
        if behind_search && is_base(item) {
            return true;
        }
        behind_search = is_search(item);
    }
    false
}

fn is_search(item: &PatItem) -> bool
    ensures { result ≡ is_search item.now }
{
    matches!(item, PatItem::Search(_))
}

fn is_base(item: &PatItem) -> bool
    ensures { result ≡ is_base item.now }
{
    matches!(item, PatItem::Base(_))
}
