//! What stands of the next cells.

ghost use Rattle.std.specs.Prelude.{◌≡◌, ◌+◌, ◌<◌, ◌≤◌, ◌^◌, ◌++◌, [], ◌∷◌, length, map, false, IfOk, OnOk, MatchOption};
ghost use Rattle.fuun_base.specs.Quote.{asnat, protect};
ghost use Rattle.sym_strand.specs.Cells.{all_known, known_front};
ghost use Rattle.sym_strand.specs.declared.cells.Cell.TheVariants.{Known};
ghost use Rattle.explainer.specs.Making.{cells_of, PutsWhere};
ghost use Rattle.explainer.specs.Replacement.{text_of, put_by, quotes_target};

use crate::texts::Texts;
use cell_rope::CellRope;
use dna_items::TplItem;
use fuun_base::{Base, NoMemory, Steps, asnat_into};
use rope_strand::RopeStrand;
use std::alloc::Global;
use std::sync::ledger::Ledger;
use strand::Strand;

/// What stands of the next cells: some that are done, and the bases behind them that wait, so that they become one segment.
#[derive(Drop)]
pub(crate) struct Front {
    pub(crate) done: CellRope,
    pub(crate) waiting: Vec<Base>,
}

impl Front {
    pub(crate) fn new(alloc: Global) -> Result<Front, NoMemory>
        ensures { IfOk result (λ front. cells_of front ≡ []) }
    {
        Ok(Front {
            done: CellRope::empty(alloc)?,
            waiting: Vec::new(alloc),
        })
    }

    /// How many cells there are.
    pub(crate) fn len(&self) -> u64
        requires { length (cells_of self.now) ≤ 2 ^ 41 }
        ensures { result ≡ length (cells_of self.now) }
    {
        self.done.len() + self.waiting.len() as u64
    }

    /// The cells, the waiting bases with them.
    pub(crate) fn finished<L: Ledger>(
        self,
        alloc: Global,
        steps: &mut Steps<L>,
    ) -> Result<CellRope, NoMemory>
        requires { length (cells_of self) ≤ 2 ^ 41 }
        ensures { IfOk result (λ dna. dna ≡ cells_of self) }
    {
        let mut front = self;
        front.settle(alloc, steps)?;
        Ok(front.done)
    }

    // Puts the waiting bases to the others.
    fn settle<L: Ledger>(&mut self, alloc: Global, steps: &mut Steps<L>) -> Result<(), NoMemory>
        requires { length (cells_of self.old) ≤ 2 ^ 41 }
        ensures cells { OnOk result (self.new.done ≡ cells_of self.old) }
        ensures none { OnOk result (self.new.waiting.items ≡ []) }
    {
        let _done = self.done.len();
        let bases = RopeStrand::build(alloc, self.waiting.as_slice(), steps)?;
        let more = CellRope::of_known(alloc, bases)?;
        self.done = CellRope::join(&self.done, &more, steps)?;
        self.waiting.clear();
        Ok(())
    }

    /// Adds what an item of a template puts, if it fits the room.
    pub(crate) fn put<L: Ledger>(
        &mut self,
        alloc: Global,
        texts: &mut Texts<'_>,
        item: TplItem,
        room: u64,
        steps: &mut Steps<L>,
    ) -> Result<bool, NoMemory>
        requires known { quotes_target texts.old item ≡ false }
        requires room { length (cells_of self.old) + room ≤ 2 ^ 40 }
        ensures puts { IfOk result (λ fits. PutsWhere fits room (cells_of self.old) (cells_of self.new) (put_by texts.old item)) }
        ensures same { texts.new ≡ texts.old }
    {
        match item {
            TplItem::Base(base) => self.put_bases(&[base], room),
            TplItem::Group { n, level } => {
                if level == 0 {
                    self.put_group(alloc, texts, n, room, steps)
                } else {
                    self.put_quoted(alloc, texts, n, level, room, steps)
                }
            }
            TplItem::Len(n) => self.put_len(alloc, texts, n, room),
        }
    }

    fn put_bases(&mut self, bases: &[Base], room: u64) -> Result<bool, NoMemory>
        ensures { IfOk result (λ fits. PutsWhere fits room (cells_of self.old) (cells_of self.new) (map Known bases.now)) }
    {
        if bases.len() as u64 > room {
            return Ok(false);
        }
        self.waiting.extend_from_slice(bases)?;
        Ok(true)
    }

    fn put_group<L: Ledger>(
        &mut self,
        alloc: Global,
        texts: &mut Texts<'_>,
        n: u64,
        room: u64,
        steps: &mut Steps<L>,
    ) -> Result<bool, NoMemory>
        requires { length (cells_of self.old) + room ≤ 2 ^ 40 }
        ensures puts { IfOk result (λ fits. PutsWhere fits room (cells_of self.old) (cells_of self.new) (text_of texts.old n)) }
        ensures same { texts.new ≡ texts.old }
    {
        let text = texts.text(n, steps)?;
        self.put_cells(alloc, &text, room, steps)
    }

    fn put_cells<L: Ledger>(
        &mut self,
        alloc: Global,
        text: &CellRope,
        room: u64,
        steps: &mut Steps<L>,
    ) -> Result<bool, NoMemory>
        requires { length (cells_of self.old) + room ≤ 2 ^ 40 }
        ensures { IfOk result (λ fits. PutsWhere fits room (cells_of self.old) (cells_of self.new) text.now) }
    {
        if text.len() > room {
            return Ok(false);
        }
        if text.len() == 0 {
            return Ok(true);
        }
        self.settle(alloc, steps)?;
        self.done = CellRope::join(&self.done, text, steps)?;
        Ok(true)
    }

    fn put_quoted<L: Ledger>(
        &mut self,
        alloc: Global,
        texts: &mut Texts<'_>,
        n: u64,
        level: u64,
        room: u64,
        steps: &mut Steps<L>,
    ) -> Result<bool, NoMemory>
        requires { length (cells_of self.old) + room ≤ 2 ^ 40 }
        ensures puts { IfOk result (λ fits. PutsWhere fits room (cells_of self.old) (cells_of self.new)
            (map Known (protect level (known_front (text_of texts.old n))))) }
        ensures same { texts.new ≡ texts.old }
    {
        let text = texts.text(n, steps)?;
        match quoted(&text, level, room, steps)? {
            None => Ok(false),
            Some(bases) => {
                let bases = CellRope::of_known(alloc, bases)?;
                self.put_cells(alloc, &bases, room, steps)
            }
        }
    }

    fn put_len(
        &mut self,
        alloc: Global,
        texts: &Texts<'_>,
        n: u64,
        room: u64,
    ) -> Result<bool, NoMemory>
        ensures { IfOk result (λ fits. PutsWhere fits room (cells_of self.old) (cells_of self.new)
            (map Known (asnat (length (text_of texts.now n))))) }
    {
        let mut number = Vec::new(alloc);
        asnat_into(texts.len_of(n), &mut number)?;
        self.put_bases(number.as_slice(), room)
    }
}

// The bases before the first place of the target, quoted so often: None where they are more than the room.
fn quoted<L: Ledger>(
    text: &CellRope,
    level: u64,
    room: u64,
    steps: &mut Steps<L>,
) -> Result<Option<RopeStrand>, NoMemory>
    requires { room ≤ 2 ^ 40 }
    ensures { IfOk result (λ found. MatchOption found
        (room < length (protect level (known_front text.now)))
        (λ front. front.bases ≡ protect level (known_front text.now))) }
{
    let _len = text.len();
    let front = text.known_front(steps)?;
    let len = front.len();
    let Some(_len) = front.tally(0, len).quoted_len(level, room) else {
        return Ok(None);
    };
    Ok(Some(front.quoted(0, len, level, steps)?))
}
