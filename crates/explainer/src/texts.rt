//! The texts of a match's groups.

ghost use Rattle.std.specs.Prelude.{◌≡◌, ℕ, ◌<◌, List, All, length, get_or, slice_range, not, IfOk, IfSome, Some, None as Nothing};
ghost use Rattle.matcher.specs.Found.{LiesWithin};
ghost use Rattle.sym_strand.specs.Cells.{all_known};
ghost use Rattle.sym_strand.specs.declared.cells.Cell.{Cell};
ghost use Rattle.explainer.specs.Cuts.{AreCuts};
ghost use Rattle.explainer.specs.Replacement.{text_of, texts_of, quotes_target, depends_on_target};

use cell_rope::CellRope;
use dna_items::TplItem;
use fuun_base::{NoMemory, Steps};
use std::alloc::Global;
use std::marker::Model;
use std::sync::ledger::Ledger;

/// The texts of a match's groups. Each is cut when it is first asked for, and shared from then on.
#[derive(Drop)]
pub(crate) struct Texts<'a> {
    alloc: Global,
    dna: &'a CellRope,
    groups: &'a [(u64, u64)],
    cuts: Vec<Option<CellRope>>,
}

impl<'a> Model for Texts<'a> {
    ghost use Rattle.std.specs.Prelude.{List, All, length};
    ghost use Rattle.matcher.specs.Found.{LiesWithin};
    ghost use Rattle.sym_strand.specs.declared.cells.Cell.{Cell};
    ghost use Rattle.explainer.specs.Cuts.{AreCuts};
    ghost use Rattle.explainer.specs.Replacement.{texts_of};

    ghost Value = { List (List Cell) };

    ghost view = { λ t. texts_of t.dna.now t.groups.now };

    ghost invariant = { λ t. All (LiesWithin (length t.dna.now)) t.groups.now × AreCuts (texts_of t.dna.now t.groups.now) t.cuts.items };
}

impl<'a> Texts<'a> {
    pub(crate) fn new(alloc: Global, dna: &'a CellRope, groups: &'a [(u64, u64)]) -> Self
        requires { All (LiesWithin (length dna.now)) groups.now }
        ensures { result ≡ texts_of dna.now groups.now }
    {
        Texts {
            alloc,
            dna,
            groups,
            cuts: Vec::new(alloc),
        }
    }

    /// How many cells the text of a group has. Past the last group it is empty.
    pub(crate) fn len_of(&self, n: u64) -> u64
        ensures { result ≡ length (text_of self.now n) }
    {
        let (lo, hi) = range_of(self.groups, n);
        hi - lo
    }

    /// The text of a group. Past the last group it is empty.
    pub(crate) fn text<L: Ledger>(
        &mut self,
        n: u64,
        steps: &mut Steps<L>,
    ) -> Result<CellRope, NoMemory>
        ensures text { IfOk result (λ text. text ≡ text_of self.old n) }
        ensures same { self.new ≡ self.old }
    {
        let (lo, hi) = range_of(self.groups, n);
        if lo == hi {
            return CellRope::empty(self.alloc);
        }
        if let Some(cut) = kept(self.cuts.as_slice(), n as usize) {
            return cut.share();
        }
        let cut = self.dna.sub(lo, hi, steps)?;
        keep(&mut self.cuts, n as usize, cut.share()?)?;
        Ok(cut)
    }
}

/// Where the text of a group lies: nowhere past the last group.
fn range_of(groups: &[(u64, u64)], n: u64) -> (u64, u64)
    ensures text { (z : List Cell) → slice_range z result.0 result.1 ≡ text_of (texts_of z groups.now) n }
    ensures exists { result.0 < result.1 → n < length groups.now }
    ensures within { (len : ℕ) → All (LiesWithin len) groups.now → LiesWithin len result }
{
    match groups.get(n as usize) {
        None => (0, 0),
        Some(range) => *range,
    }
}

fn kept(cuts: &[Option<CellRope>], n: usize) -> Option<&CellRope>
    ensures { IfSome result (λ cut. get_or cuts.now n Nothing ≡ Some cut.now) }
{
    cuts.get(n)?.as_ref()
}

fn keep(cuts: &mut Vec<Option<CellRope>>, n: usize, cut: CellRope) -> Result<(), NoMemory>
    ensures { (texts : List (List Cell)) → n < length texts → text_of texts n ≡ cut →
        AreCuts texts cuts.old.items → AreCuts texts cuts.new.items }
{
    while cuts.len() <= n {
        cuts.push(None)?;
    }
    cuts[n] = Some(cut);
    Ok(())
}

/// Whether an item of a template quotes a place of the target.
pub(crate) fn depends<L: Ledger>(
    texts: &mut Texts<'_>,
    items: &[TplItem],
    steps: &mut Steps<L>,
) -> Result<bool, NoMemory>
    ensures depends { IfOk result (λ found. found ≡ depends_on_target texts.old items.now) }
    ensures same { texts.new ≡ texts.old }
{
    for item in items {
        if quotes(texts, *item, steps)? {
            return Ok(true);
        }
    }
    Ok(false)
}

fn quotes<L: Ledger>(
    texts: &mut Texts<'_>,
    item: TplItem,
    steps: &mut Steps<L>,
) -> Result<bool, NoMemory>
    ensures quotes { IfOk result (λ found. found ≡ quotes_target texts.old item) }
    ensures same { texts.new ≡ texts.old }
{
    match item {
        TplItem::Group { n, level } if level > 0 => holds_target(texts, n, steps),
        TplItem::Base(_) | TplItem::Group { .. } | TplItem::Len(_) => Ok(false),
    }
}

fn holds_target<L: Ledger>(
    texts: &mut Texts<'_>,
    n: u64,
    steps: &mut Steps<L>,
) -> Result<bool, NoMemory>
    ensures holds { IfOk result (λ found. found ≡ not (all_known (text_of texts.old n))) }
    ensures same { texts.new ≡ texts.old }
{
    Ok(!texts.text(n, steps)?.all_known())
}
