ghost use Rattle.std.specs.Prelude.{◌≡◌, ℕ, ◌+◌, ◌*◌, ◌≤◌, ◌^◌, length, All, IfOk};
ghost use Rattle.fuun_base.specs.Ticks.{Ticks};
ghost use Rattle.matcher.specs.Found.{LiesWithin};
ghost use Rattle.replacer.specs.Costs.{cost};
ghost use Rattle.replacer.specs.Replacement.{replacement, texts_of, replaced};
ghost use Rattle.replacer.specs.Weight.{quoted_bases, weight_but_a_cut};

use crate::cuts::Cuts;
use crate::fronts::Front;
use dna_items::TplList;
use fuun_base::{NoMemory, Steps};
use matcher::GroupList;
use std::alloc::Global;
use std::sync::ledger::Ledger;
use strand::Strand;

/// The DNA after the replacement, which has at most 2^40 bases: what the template puts, and then the bases from `stop` on.
pub fn replace<S: Strand, L: Ledger>(
    alloc: Global,
    s: &S,
    tpl: &TplList,
    groups: &GroupList,
    stop: u64,
    steps: &mut Steps<L>,
) -> Result<S, NoMemory>
    requires stop { stop ≤ length (S.bases s.now) }
    requires groups { All (LiesWithin (length (S.bases s.now))) groups.now }
    requires small { length (replaced (S.bases s.now) tpl.now groups.now stop) ≤ 2 ^ 40 }
    ensures bases { IfOk result (λ dna. S.bases dna ≡ replaced (S.bases s.now) tpl.now groups.now stop) }
    ensures length { IfOk result (λ dna. length (S.bases dna) ≤ 2 ^ 40) }
    ensures height { IfOk result (λ dna. S.height dna ≤ S.height_bound (length (S.bases dna))) }
    ensures ticks { (most : ℕ) → length (S.bases s.now) ≤ most → length (replaced (S.bases s.now) tpl.now groups.now stop) ≤ most →
        Ticks steps.old steps.new
        (weight_but_a_cut (length tpl.now) (quoted_bases (texts_of (S.bases s.now) groups.now) tpl.now) (S.height_bound most)) }
{
    let _len = s.len();
    let put = put_all(alloc, s, tpl, groups, steps)?;
    S::join_from(&put, s, stop, steps)
}

// The strand of what the template puts.
fn put_all<S: Strand, L: Ledger>(
    alloc: Global,
    s: &S,
    tpl: &TplList,
    groups: &GroupList,
    steps: &mut Steps<L>,
) -> Result<S, NoMemory>
    ghost most: { ℕ }
    requires groups { All (LiesWithin (length (S.bases s.now))) groups.now }
    requires small { length (replacement (texts_of (S.bases s.now) groups.now) tpl.now) ≤ 2 ^ 40 }
    requires within { length (replacement (texts_of (S.bases s.now) groups.now) tpl.now) ≤ most }
    requires strand { S.height s.now ≤ S.height_bound most }
    ensures bases { IfOk result (λ dna. S.bases dna ≡ replacement (texts_of (S.bases s.now) groups.now) tpl.now) }
    ensures height { IfOk result (λ dna. S.height dna ≤ S.height_bound most) }
    ensures ticks { Ticks steps.old steps.new
        (cost (S.height_bound most) (texts_of (S.bases s.now) groups.now) tpl.now + 3 * (S.height_bound most + 1)) }
{
    let mut front = Front::new(alloc);
    let mut cuts = Cuts::new(alloc);
    for item in tpl.as_slice() {
        front = front.put(alloc, s, groups, item, &mut cuts, steps)?;
    }
    front.joined(alloc, steps)
}
