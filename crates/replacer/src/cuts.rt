ghost use Rattle.std.specs.Prelude.{◌≡◌, ◌+◌, ◌*◌, ◌<◌, List, [], length, get_or, All, IfOk, IfSome, Some, None as Nothing};
ghost use Rattle.fuun_base.specs.declared.letters.Base.{Base};
ghost use Rattle.fuun_base.specs.Ticks.{Ticks};
ghost use Rattle.matcher.specs.Found.{LiesWithin};
ghost use Rattle.replacer.specs.Cuts.{IsCut, AreCuts};
ghost use Rattle.replacer.specs.Replacement.{text_of, texts_of};

use crate::ranges::range_of;
use fuun_base::{NoMemory, Steps};
use matcher::GroupList;
use std::alloc::Global;
use std::sync::ledger::Ledger;
use strand::Strand;

// What was cut of the groups of a match, each under its number.
#[derive(Drop)]
pub(crate) struct Cuts<S: Strand> {
    pub(crate) made: Vec<Option<S>>,
}

impl<S: Strand> Cuts<S> {
    pub(crate) fn new(alloc: Global) -> Self
        ensures { result.made.items ≡ [] }
    {
        Cuts {
            made: Vec::new(alloc),
        }
    }

    // The text of a group that exists. It is cut once, and shared from then on.
    pub(crate) fn of_group<L: Ledger>(
        &mut self,
        s: &S,
        groups: &GroupList,
        n: u64,
        steps: &mut Steps<L>,
    ) -> Result<S, NoMemory>
        ghost texts: { List (List Base) }
        requires texts { texts ≡ texts_of (S.bases s.now) groups.now }
        requires groups { All (LiesWithin (length (S.bases s.now))) groups.now }
        requires exists { n < length groups.now }
        requires cuts { AreCuts S.bases S.height S.height_bound texts self.old.made.items }
        ensures cut { IfOk result (IsCut S.bases S.height S.height_bound (text_of texts n)) }
        ensures cuts { AreCuts S.bases S.height S.height_bound texts self.new.made.items }
        ensures ticks { Ticks steps.old steps.new (64 * (S.height s.now + 1)) }
    {
        if let Some(cut) = self.kept(n as usize) {
            return cut.share();
        }
        let (lo, hi) = range_of(groups, n);
        let cut = s.sub(lo, hi, steps)?;
        self.keep(n as usize, cut.share()?)?;
        Ok(cut)
    }

    fn kept(&self, n: usize) -> Option<&S>
        ensures { IfSome result (λ cut. get_or self.now.made.items n Nothing ≡ Some cut.now) }
    {
        self.made.get(n)?.as_ref()
    }

    fn keep(&mut self, n: usize, cut: S) -> Result<(), NoMemory>
        ghost texts: { List (List Base) }
        requires exists { n < length texts }
        requires cut { IsCut S.bases S.height S.height_bound (text_of texts n) cut }
        requires cuts { AreCuts S.bases S.height S.height_bound texts self.old.made.items }
        ensures { AreCuts S.bases S.height S.height_bound texts self.new.made.items }
    {
        while self.made.len() <= n {
            self.made.push(None)?;
        }
        self.made[n] = Some(cut);
        Ok(())
    }
}
