//! The list of what a fill has still to look at.

ghost use Rattle.std.specs.Prelude.{◌≡◌, ℕ, ◌+◌, ◌*◌, ◌<◌, ◌≤◌, [], ◌∷◌, length, IfOk, MatchOption};
ghost use Rattle.flood.specs.Spans.{IsSpanOf};

use crate::span::Span;
use fuun_base::NoMemory;
use std::alloc::Global;
use std::marker::Model;

/// The memory of fills on bitmaps of side `SIDE`, from 1 to 1024: a list with room for as many
/// spans of rows as a bitmap has pixels.
#[derive(Drop)]
pub struct Work<const SIDE: usize> {
    spans: Vec<Span>,
}

impl<const SIDE: usize> Model for Work<SIDE> {
    ghost use Rattle.std.specs.Prelude.{List, reverse};
    ghost use Rattle.flood.specs.declared.span.Span.{Span};
    ghost use Rattle.flood.specs.Spans.{HasRoom};

    ghost Value = { List Span };

    ghost view = { λ w. reverse w.spans.items };

    ghost invariant = { λ w. HasRoom SIDE w.spans };
}

impl<const SIDE: usize> Work<SIDE> {
    /// The empty list. It takes all its memory here, and fills take none.
    pub fn new(alloc: Global) -> Result<Work<SIDE>, NoMemory>
        requires { (1 ≤ SIDE) × (SIDE ≤ 1024) }
        ensures { IfOk result (λ work. work ≡ []) }
    {
        let spans = Vec::with_capacity(alloc, area(SIDE))?;
        Ok(Work { spans })
    }

    pub(crate) fn clear(&mut self)
        ensures { self.new ≡ [] }
    {
        self.spans.clear();
    }

    pub(crate) fn push(&mut self, span: Span)
        requires span { IsSpanOf SIDE span }
        requires room { length self.old < SIDE * SIDE }
        ensures { self.new ≡ span ∷ self.old }
    {
        self.spans.push_reserved(span);
    }

    pub(crate) fn pop(&mut self) -> Option<Span>
        ensures { MatchOption result ((self.old ≡ []) × (self.new ≡ [])) (λ span. (self.old ≡ span ∷ self.new) × IsSpanOf SIDE span) }
    {
        self.spans.pop()
    }
}

// How many pixels a bitmap of this side has.
fn area(side: usize) -> usize
    requires { side ≤ 1024 }
    ensures { result ≡ side * side }
{
    side * side
}
