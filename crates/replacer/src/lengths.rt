ghost use Rattle.std.specs.Prelude.{◌≡◌, ◌<◌, ◌≤◌, ◌^◌, length, All, MatchOption};
ghost use Rattle.fuun_base.specs.Quote.{asnat, protect};
ghost use Rattle.matcher.specs.Found.{LiesWithin};
ghost use Rattle.replacer.specs.Replacement.{put_by, text_of, texts_of, replaced};

use crate::ranges::range_of;
use dna_items::{TplItem, TplList};
use matcher::GroupList;
use strand::Strand;

/// How many bases the DNA has after the replacement: None exactly where they are more than the limit.
pub fn replaced_len<S: Strand>(
    s: &S,
    tpl: &TplList,
    groups: &GroupList,
    stop: u64,
    limit: u64,
) -> Option<u64>
    requires stop { stop ≤ length (S.bases s.now) }
    requires groups { All (LiesWithin (length (S.bases s.now))) groups.now }
    requires limit { limit ≤ 2 ^ 40 }
    ensures { MatchOption result
        (limit < length (replaced (S.bases s.now) tpl.now groups.now stop))
        (λ len. (len ≡ length (replaced (S.bases s.now) tpl.now groups.now stop)) × (len ≤ limit)) }
{
    let mut len = fitting(s.len() - stop, limit)?;
    for item in tpl.as_slice() {
        len += item_len(s, item, groups, limit - len)?;
    }
    Some(len)
}

fn item_len<S: Strand>(s: &S, item: &TplItem, groups: &GroupList, cap: u64) -> Option<u64>
    requires most { length (S.bases s.now) ≤ 2 ^ 41 }
    requires groups { All (LiesWithin (length (S.bases s.now))) groups.now }
    requires cap { cap ≤ 2 ^ 40 }
    ensures { MatchOption result
        (cap < length (put_by (texts_of (S.bases s.now) groups.now) item.now))
        (λ len. (len ≡ length (put_by (texts_of (S.bases s.now) groups.now) item.now)) × (len ≤ cap)) }
{
    match *item {
        TplItem::Base(_) => fitting(1, cap),
        TplItem::Group { n, level } => group_len(s, groups, n, level, cap),
        TplItem::Len(n) => number_len(s, groups, n, cap),
    }
}

fn group_len<S: Strand>(s: &S, groups: &GroupList, n: u64, level: u64, cap: u64) -> Option<u64>
    requires most { length (S.bases s.now) ≤ 2 ^ 41 }
    requires groups { All (LiesWithin (length (S.bases s.now))) groups.now }
    requires cap { cap ≤ 2 ^ 40 }
    ensures { let len = length (protect level (text_of (texts_of (S.bases s.now) groups.now) n)) in
        MatchOption result (cap < len) (λ found. (found ≡ len) × (found ≤ cap)) }
{
    let (lo, hi) = range_of(groups, n);
    if level == 0 {
        return fitting(hi - lo, cap);
    }
    let tally = s.tally(lo, hi);
    tally.quoted_len(level, cap)
}

fn number_len<S: Strand>(s: &S, groups: &GroupList, n: u64, cap: u64) -> Option<u64>
    requires most { length (S.bases s.now) ≤ 2 ^ 41 }
    requires groups { All (LiesWithin (length (S.bases s.now))) groups.now }
    ensures { let len = length (asnat (length (text_of (texts_of (S.bases s.now) groups.now) n))) in
        MatchOption result (cap < len) (λ found. (found ≡ len) × (found ≤ cap)) }
{
    let (lo, hi) = range_of(groups, n);
    fitting(number_bases(hi - lo), cap)
}

// How many bases a number takes: its binary digits, and one more.
fn number_bases(n: u64) -> u64
    ensures { result ≡ length (asnat n) }
{
    let mut len = 1;
    let mut left = n;
    while left > 0 {
        left /= 2;
        len += 1;
    }
    len
}

fn fitting(len: u64, cap: u64) -> Option<u64>
    ensures { MatchOption result (cap < len) (λ found. (found ≡ len) × (found ≤ cap)) }
{
    if len > cap {
        return None;
    }
    Some(len)
}
