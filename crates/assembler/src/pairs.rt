//! Pairs in a text.
ghost use Rattle.std.specs.Prelude.{◌≡◌, ◌++◌, ℕ, List, codes, drop, IfOk, MatchOption};
ghost use Rattle.assembler.specs.Ahead.{Runs, pattern_item_ahead, template_item_ahead};
ghost use Rattle.assembler.specs.Pairs.{IsNoPair, IsPair};

use crate::items::{pattern_item, template_item};
use crate::numbers::rest_from;
use dna_items::{PatList, TplList};
use fuun_base::NoMemory;
use std::alloc::Global;

/// A pattern and its template.
#[derive(Drop)]
pub(crate) struct Pair {
    pub(crate) pattern: PatList,
    pub(crate) template: TplList,
}

/// The pair whose text a line is, where its numbers are all below 2^63.
pub(crate) fn read_pair(alloc: Global, line: &[u8]) -> Result<Option<Pair>, NoMemory>
    ensures { IfOk result (λ read. MatchOption read (IsNoPair line.now) (λ pair. IsPair line.now pair.pattern pair.template)) }
{
    let (pattern, len) = read_pattern(alloc, line)?;
    let Some(rest) = behind_arrow(rest_from(line, len)) else {
        return Ok(None);
    };
    let (template, len) = read_template(alloc, rest)?;
    if len < rest.len() {
        return Ok(None);
    }
    Ok(Some(Pair { pattern, template }))
}

// The items of a pattern that stand at the front, and how many bytes they take.
fn read_pattern(alloc: Global, bytes: &[u8]) -> Result<(PatList, usize), NoMemory>
    ensures { IfOk result (λ read. Runs pattern_item_ahead bytes.now read.0 (drop read.1 bytes.now)) }
{
    let mut items = PatList::new(alloc);
    let mut place = 0;
    'items: while let Some((item, len)) = pattern_item(alloc, rest_from(bytes, place))? {
        items.push(item)?;
        place += len;
    }
    Ok((items, place))
}

// The items of a template that stand at the front, and how many bytes they take.
fn read_template(alloc: Global, bytes: &[u8]) -> Result<(TplList, usize), NoMemory>
    ensures { IfOk result (λ read. Runs template_item_ahead bytes.now read.0 (drop read.1 bytes.now)) }
{
    let mut items = TplList::new(alloc);
    let mut place = 0;
    'items: while let Some((item, len)) = template_item(rest_from(bytes, place)) {
        items.push(item)?;
        place += len;
    }
    Ok((items, place))
}

// What stands behind the arrow between a pattern and a template.
fn behind_arrow(bytes: &[u8]) -> Option<&[u8]>
    ensures { MatchOption result ((rest : List ℕ) → bytes.now ≡ codes " -> " ++ rest → ⊥) (λ rest. bytes.now ≡ codes " -> " ++ rest.now) }
{
    bytes.strip_prefix(b" -> ")
}
