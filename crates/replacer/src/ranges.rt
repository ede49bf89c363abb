ghost use Rattle.std.specs.Prelude.{◌≡◌, ℕ, ◌<◌, List, All, length, slice_range};
ghost use Rattle.fuun_base.specs.declared.letters.Base.{Base};
ghost use Rattle.matcher.specs.Found.{LiesWithin};
ghost use Rattle.replacer.specs.Replacement.{text_of, texts_of};

use matcher::GroupList;

// Where the text of a group lies: nowhere past the last group.
pub(crate) fn range_of(groups: &GroupList, n: u64) -> (u64, u64)
    ensures text { (d : List Base) → slice_range d result.0 result.1 ≡ text_of (texts_of d groups.now) n }
    ensures exists { result.0 < result.1 → n < length groups.now }
    ensures within { (len : ℕ) → All (LiesWithin len) groups.now → LiesWithin len result }
{
    match groups.get(n as usize) {
        None => (0, 0),
        Some(range) => *range,
    }
}
