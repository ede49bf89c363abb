ghost use Rattle.std.specs.Prelude.{◌≡◌, ℕ, ◌+◌, ◌*◌, ◌≤◌, ◌^◌, ◌∷◌, [], ◌++◌, length, slice_range, true, All, IfOk, OnOk};
ghost use Rattle.fuun_base.specs.Quote.{asnat, protect};
ghost use Rattle.fuun_base.specs.Ticks.{Ticks};
ghost use Rattle.matcher.specs.Found.{LiesWithin};
ghost use Rattle.replacer.specs.Costs.{put_cost, item_cost};
ghost use Rattle.replacer.specs.Cuts.{AreCuts};
ghost use Rattle.replacer.specs.Replacement.{put_by, text_of, texts_of};
ghost use Rattle.replacer.specs.Weight.{quoted_at};

use crate::cuts::Cuts;
use crate::ranges::range_of;
use dna_items::TplItem;
use fuun_base::{Base, NoMemory, Steps, asnat_into, quote_into};
use matcher::GroupList;
use std::alloc::Global;
use std::sync::ledger::Ledger;
use strand::Strand;

// A group of at most so many bases waits with the literals, unless more than twice as many are put for it.
const SMALL_MOST: usize = 64;

// What stands of the new DNA: a strand, and the bases behind it that wait for the next build.
#[derive(Drop)]
pub(crate) struct Front<S: Strand> {
    pub(crate) done: S,
    pub(crate) waiting: Vec<Base>,
}

impl<S: Strand> Front<S> {
    pub(crate) fn new(alloc: Global) -> Self
        ensures bases { S.bases result.done ++ result.waiting.items ≡ [] }
        ensures none { result.waiting.items ≡ [] }
        ensures height { (most : ℕ) → S.height result.done ≤ S.height_bound most }
    {
        Front {
            done: S::empty(alloc),
            waiting: Vec::new(alloc),
        }
    }

    // What the item puts comes behind what stands. For each base that waits two steps are set aside, for the next build.
    pub(crate) fn put<L: Ledger>(
        self,
        alloc: Global,
        s: &S,
        groups: &GroupList,
        item: &TplItem,
        cuts: &mut Cuts<S>,
        steps: &mut Steps<L>,
    ) -> Result<Self, NoMemory>
        ghost most: { ℕ }
        requires groups { All (LiesWithin (length (S.bases s.now))) groups.now }
        requires cuts { AreCuts S.bases S.height S.height_bound (texts_of (S.bases s.now) groups.now) cuts.old.made.items }
        requires small { length (S.bases self.done ++ self.waiting.items)
            + length (put_by (texts_of (S.bases s.now) groups.now) item.now) ≤ 2 ^ 40 }
        requires within { length (S.bases self.done ++ self.waiting.items)
            + length (put_by (texts_of (S.bases s.now) groups.now) item.now) ≤ most }
        requires done { S.height self.done ≤ S.height_bound most }
        requires strand { S.height s.now ≤ S.height_bound most }
        ensures bases { IfOk result (λ front. S.bases front.done ++ front.waiting.items
            ≡ (S.bases self.done ++ self.waiting.items) ++ put_by (texts_of (S.bases s.now) groups.now) item.now) }
        ensures cuts { AreCuts S.bases S.height S.height_bound (texts_of (S.bases s.now) groups.now) cuts.new.made.items }
        ensures height { IfOk result (λ front. S.height front.done ≤ S.height_bound most) }
        ensures ticks { Ticks steps.old steps.new
            (2 * length self.waiting.items + item_cost (S.height_bound most) (texts_of (S.bases s.now) groups.now) item.now) }
        ensures paid { IfOk result (λ front. steps.new + 2 * length front.waiting.items
            ≤ steps.old + (2 * length self.waiting.items + item_cost (S.height_bound most) (texts_of (S.bases s.now) groups.now) item.now)) }
    {
        match *item {
            TplItem::Base(base) => self.put_base(base),
            TplItem::Group { n, level } => {
                self.put_group(alloc, s, groups, n, level, cuts, steps)
            }
            TplItem::Len(n) => self.put_len(s, range_of(groups, n)),
        }
    }

    fn put_base(self, base: Base) -> Result<Self, NoMemory>
        ensures bases { IfOk result (λ front. S.bases front.done ++ front.waiting.items
            ≡ (S.bases self.done ++ self.waiting.items) ++ base ∷ []) }
        ensures done { IfOk result (λ front. front.done ≡ self.done) }
        ensures waiting { IfOk result (λ front. length front.waiting.items ≡ length self.waiting.items + 1) }
    {
        let mut front = self;
        front.waiting.push(base)?;
        Ok(front)
    }

    fn put_len(self, s: &S, range: (u64, u64)) -> Result<Self, NoMemory>
        requires { LiesWithin (length (S.bases s.now)) range }
        ensures bases { IfOk result (λ front. S.bases front.done ++ front.waiting.items
            ≡ (S.bases self.done ++ self.waiting.items) ++ asnat (length (slice_range (S.bases s.now) range.0 range.1))) }
        ensures done { IfOk result (λ front. front.done ≡ self.done) }
        ensures waiting { IfOk result (λ front. length front.waiting.items ≤ length self.waiting.items + 65) }
    {
        let (lo, hi) = range;
        let mut front = self;
        asnat_into(hi - lo, &mut front.waiting)?;
        Ok(front)
    }

    fn put_group<L: Ledger>(
        self,
        alloc: Global,
        s: &S,
        groups: &GroupList,
        n: u64,
        level: u64,
        cuts: &mut Cuts<S>,
        steps: &mut Steps<L>,
    ) -> Result<Self, NoMemory>
        ghost most: { ℕ }
        requires groups { All (LiesWithin (length (S.bases s.now))) groups.now }
        requires cuts { AreCuts S.bases S.height S.height_bound (texts_of (S.bases s.now) groups.now) cuts.old.made.items }
        requires small { length (S.bases self.done ++ self.waiting.items)
            + length (protect level (text_of (texts_of (S.bases s.now) groups.now) n)) ≤ 2 ^ 40 }
        requires within { length (S.bases self.done ++ self.waiting.items)
            + length (protect level (text_of (texts_of (S.bases s.now) groups.now) n)) ≤ most }
        requires done { S.height self.done ≤ S.height_bound most }
        requires strand { S.height s.now ≤ S.height_bound most }
        ensures bases { IfOk result (λ front. S.bases front.done ++ front.waiting.items
            ≡ (S.bases self.done ++ self.waiting.items) ++ protect level (text_of (texts_of (S.bases s.now) groups.now) n)) }
        ensures cuts { AreCuts S.bases S.height S.height_bound (texts_of (S.bases s.now) groups.now) cuts.new.made.items }
        ensures height { IfOk result (λ front. S.height front.done ≤ S.height_bound most) }
        ensures ticks { Ticks steps.old steps.new
            (2 * length self.waiting.items + put_cost (S.height_bound most) (quoted_at level (text_of (texts_of (S.bases s.now) groups.now) n))) }
        ensures paid { IfOk result (λ front. steps.new + 2 * length front.waiting.items
            ≤ steps.old + (2 * length self.waiting.items + put_cost (S.height_bound most) (quoted_at level (text_of (texts_of (S.bases s.now) groups.now) n)))) }
    {
        let (lo, hi) = range_of(groups, n);
        if lo == hi {
            return Ok(self);
        }
        if is_small(s, (lo, hi), level) {
            return self.put_small(alloc, s, (lo, hi), level);
        }
        if level == 0 {
            let part = cuts.of_group(s, groups, n, steps)?;
            return self.put_part(alloc, &part, steps);
        }
        let part = s.quoted(lo, hi, level, steps)?;
        self.put_part(alloc, &part, steps)
    }

    // A strand comes behind all that stands.
    fn put_part<L: Ledger>(
        self,
        alloc: Global,
        part: &S,
        steps: &mut Steps<L>,
    ) -> Result<Self, NoMemory>
        ghost most: { ℕ }
        requires small { length (S.bases self.done ++ self.waiting.items) + length (S.bases part.now) ≤ 2 ^ 40 }
        requires within { length (S.bases self.done ++ self.waiting.items) + length (S.bases part.now) ≤ most }
        requires done { S.height self.done ≤ S.height_bound most }
        requires part { S.height part.now ≤ S.height_bound most }
        ensures bases { IfOk result (λ front. S.bases front.done ++ front.waiting.items
            ≡ (S.bases self.done ++ self.waiting.items) ++ S.bases part.now) }
        ensures height { IfOk result (λ front. S.height front.done ≤ S.height_bound most) }
        ensures none { IfOk result (λ front. front.waiting.items ≡ []) }
        ensures ticks { Ticks steps.old steps.new (2 * length self.waiting.items + 6 * (S.height_bound most + 1)) }
    {
        let done = self.joined(alloc, steps)?;
        Ok(Front {
            done: S::join(&done, part, steps)?,
            waiting: Vec::new(alloc),
        })
    }

    // A group for which a few bases are put waits with the literals.
    fn put_small(
        self,
        alloc: Global,
        s: &S,
        range: (u64, u64),
        level: u64,
    ) -> Result<Self, NoMemory>
        requires range { LiesWithin (length (S.bases s.now)) range }
        requires few { range.1 ≤ range.0 + 64 }
        requires put { length (protect level (slice_range (S.bases s.now) range.0 range.1)) ≤ 128 }
        ensures bases { IfOk result (λ front. S.bases front.done ++ front.waiting.items
            ≡ (S.bases self.done ++ self.waiting.items) ++ protect level (slice_range (S.bases s.now) range.0 range.1)) }
        ensures done { IfOk result (λ front. front.done ≡ self.done) }
        ensures waiting { IfOk result (λ front. length front.waiting.items ≤ length self.waiting.items + 128) }
    {
        let (lo, hi) = range;
        let mut text = [Base::I; SMALL_MOST];
        let text = &mut text[..(hi - lo) as usize];
        s.copy_out(lo, text);
        let mut front = self;
        append_quoted(alloc, text, level, &mut front.waiting)?;
        Ok(front)
    }

    // The strand of all that stands.
    pub(crate) fn joined<L: Ledger>(
        self,
        alloc: Global,
        steps: &mut Steps<L>,
    ) -> Result<S, NoMemory>
        ghost most: { ℕ }
        requires small { length (S.bases self.done ++ self.waiting.items) ≤ 2 ^ 40 }
        requires within { length (S.bases self.done ++ self.waiting.items) ≤ most }
        requires done { S.height self.done ≤ S.height_bound most }
        ensures bases { IfOk result (λ strand. S.bases strand ≡ S.bases self.done ++ self.waiting.items) }
        ensures height { IfOk result (λ strand. S.height strand ≤ S.height_bound most) }
        ensures ticks { Ticks steps.old steps.new (2 * length self.waiting.items + 3 * (S.height_bound most + 1)) }
    {
        if self.waiting.len() == 0 {
            return Ok(self.done);
        }
        let waiting = S::build(alloc, self.waiting.as_slice(), steps)?;
        S::join(&self.done, &waiting, steps)
    }
}

// Whether a group, put at such a level, waits with the literals.
fn is_small<S: Strand>(s: &S, range: (u64, u64), level: u64) -> bool
    requires { LiesWithin (length (S.bases s.now)) range }
    ensures few { result ≡ true → range.1 ≤ range.0 + 64 }
    ensures put { result ≡ true → length (protect level (slice_range (S.bases s.now) range.0 range.1)) ≤ 128 }
{
    let (lo, hi) = range;
    hi - lo <= SMALL_MOST as u64 && puts_few(s, range, level)
}

// Whether few bases are put for a group of a few bases.
fn puts_few<S: Strand>(s: &S, range: (u64, u64), level: u64) -> bool
    requires range { LiesWithin (length (S.bases s.now)) range }
    requires few { range.1 ≤ range.0 + 64 }
    ensures { result ≡ true → length (protect level (slice_range (S.bases s.now) range.0 range.1)) ≤ 128 }
{
    if level <= 1 {
        return true;
    }
    let (lo, hi) = range;
    let tally = s.tally(lo, hi);
    tally.quoted_len(level, 2 * SMALL_MOST as u64).is_some()
}

// Appends a text, quoted as often as the level says.
fn append_quoted(
    alloc: Global,
    text: &[Base],
    level: u64,
    out: &mut Vec<Base>,
) -> Result<(), NoMemory>
    ensures { OnOk result (out.new.items ≡ out.old.items ++ protect level text.now) }
{
    if level == 0 {
        out.extend_from_slice(text)?;
        return Ok(());
    }
    if level == 1 {
        return quote_into(text, out);
    }
    let quoted = quoted_text(alloc, text, level - 1)?;
    quote_into(quoted.as_slice(), out)
}

// A text, quoted as often as the level says.
fn quoted_text(alloc: Global, text: &[Base], level: u64) -> Result<Vec<Base>, NoMemory>
    requires { 1 ≤ level }
    ensures { IfOk result (λ quoted. quoted.items ≡ protect level text.now) }
{
    let mut quoted = Vec::new(alloc);
    quote_into(text, &mut quoted)?;
    for _ in 1..level {
        let mut more = Vec::new(alloc);
        quote_into(quoted.as_slice(), &mut more)?;
        quoted = more;
    }
    Ok(quoted)
}
