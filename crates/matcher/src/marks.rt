ghost use Rattle.std.specs.Prelude.{◌≡◌, ◌<◌, [], length, OnOk};
ghost use Rattle.matcher.specs.Step.{Marked};

use dna_items::PatItem;
use fuun_base::NoMemory;
use smallvec::SmallVec;
use std::alloc::Global;

/// The groups of a match so far: the places at which the open ones start, innermost last, and the ranges of the ended ones.
#[derive(Drop)]
pub struct Marks {
    pub starts: SmallVec<u64, 8>,
    pub ended: SmallVec<(u64, u64), 8>,
}

impl Marks {
    /// No group yet.
    pub fn new(alloc: Global) -> Self
        ensures starts { result.starts.items ≡ [] }
        ensures ended { result.ended.items ≡ [] }
    {
        Marks {
            starts: SmallVec::new(alloc),
            ended: SmallVec::new(alloc),
        }
    }

    /// What an item at a place starts or ends.
    pub fn mark(&mut self, item: &PatItem, at: u64) -> Result<(), NoMemory>
        requires { item.now ≡ PatItem.GroupStop → 0 < length self.old.starts.items }
        ensures { OnOk result (Marked item.now at self.old.starts.items self.old.ended.items self.new.starts.items self.new.ended.items) }
    {
        match item {
            PatItem::GroupStart => self.start(at),
            PatItem::GroupStop => self.end(at),
            PatItem::Base(_) | PatItem::Skip(_) | PatItem::Search(_) => Ok(()),
        }
    }

    fn start(&mut self, at: u64) -> Result<(), NoMemory>
        ensures { OnOk result (Marked PatItem.GroupStart at self.old.starts.items self.old.ended.items self.new.starts.items self.new.ended.items) }
    {
        self.starts.push(at)?;
        Ok(())
    }

    fn end(&mut self, at: u64) -> Result<(), NoMemory>
        requires { 0 < length self.old.starts.items }
        ensures { OnOk result (Marked PatItem.GroupStop at self.old.starts.items self.old.ended.items self.new.starts.items self.new.ended.items) }
    {
        let start = self.starts.pop().unwrap();
        self.ended.push((start, at))?;
        Ok(())
    }
}
