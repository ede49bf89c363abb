ghost use Rattle.std.specs.Prelude.{◌≡◌, ◌+◌, ◌^◌, ◌<◌, ◌≤◌, length, IfOk, IfSome, MatchOption, option_map};
ghost use Rattle.fuun_base.specs.Occurrence.{IsFirst, IsAbsent};
ghost use Rattle.rope_search.specs.Automaton.{IsNext};
ghost use Rattle.rope_search.specs.Sought.{Searched};

use crate::filter::passed;
use crate::rows::{column_of, rows_of};
use fuun_base::{Base, NoMemory};
use rope_core::Rope;
use rope_node::{Node, View};
use std::alloc::Global;
use std::marker::Model;

/// How many bases are walked one by one before the filter is asked again.
const WALK: usize = 16;

/// A needle, with the table by which it is searched for.
#[derive(Drop)]
pub struct KmpTable {
    pub(crate) needle: Vec<Base>,
    rows: Vec<[u32; 4]>,
}

impl Model for KmpTable {
    ghost use Rattle.std.specs.Prelude.{List};
    ghost use Rattle.fuun_base.specs.declared.letters.Base.{Base};

    ghost Value = { List Base };

    ghost view = { λ table. table.needle.items };

    ghost use Rattle.rope_search.specs.Table.{IsTable};

    ghost invariant = { IsTable };
}

impl KmpTable {
    /// The table of a needle: the memory that its searches need, 17 bytes a base. A needle of 2^32 bases or more gets none.
    pub fn new(alloc: Global, needle: &[Base]) -> Result<KmpTable, NoMemory>
        ensures { IfOk result (λ table. table ≡ needle.now) }
    {
        Ok(KmpTable {
            needle: Vec::from_slice(alloc, needle)?,
            rows: rows_of(alloc, needle)?,
        })
    }

    /// The least place at or after `lo` at which the needle stands: None exactly where there is none.
    ///
    /// Places count bases. A part of the rope that lies before `lo` is passed by its length alone.
    pub fn find_in(&self, rope: &Rope, lo: u64) -> Option<u64>
        requires { lo ≤ length rope.now.bases }
        ensures { MatchOption result
            (IsAbsent self.now rope.now.bases lo)
            (λ place. IsFirst self.now rope.now.bases lo place) }
    {
        if rope.len() - lo < self.needle.len() as u64 {
            return None;
        }
        if self.needle.len() == 0 {
            return Some(lo);
        }
        let node = rope.root()?;
        let mut found = 0;
        match self.end_of(node, lo, &mut found) {
            Some(end) => Some(end - self.needle.len() as u64),
            None => None,
        }
    }

    /// The place in a node behind the needle's first end, of a search that comes to `lo` with so many bases found.
    pub(crate) fn end_of(&self, node: &Node, lo: u64, found: &mut u32) -> Option<u64>
        requires short { found.old < length self.now }
        requires within { lo ≤ length node.now.bases }
        requires most { length node.now.bases ≤ 2 ^ 41 }
        ensures { Searched self.now node.now.bases lo found.old result found.new }
    {
        match node.view() {
            View::Leaf(bases) => moved_by(lo, self.end_in(&bases[lo as usize..], found)),
            View::Pair(left, right) => {
                let seam = left.len();
                if lo >= seam {
                    return moved_by(seam, self.end_of(right, lo - seam, found));
                }
                if let Some(end) = self.end_of(left, lo, found) {
                    return Some(end);
                }
                moved_by(seam, self.end_of(right, 0, found))
            }
        }
    }

    /// The same over the bases of a leaf.
    fn end_in(&self, bases: &[Base], found: &mut u32) -> Option<u64>
        requires { found.old < length self.now }
        ensures { Searched self.now bases.now 0 found.old result found.new }
    {
        let mut at = 0;
        while at < bases.len() {
            at = passed(bases, self.needle.as_slice(), at, *found);
            let stop = bases.len().min(at + WALK);
            if let Some(end) = self.walk(&bases[at..stop], found) {
                return Some((at + end) as u64);
            }
            at = stop;
        }
        None
    }

    /// The same, base by base.
    fn walk(&self, bases: &[Base], found: &mut u32) -> Option<usize>
        requires { found.old < length self.now }
        ensures { Searched self.now bases.now 0 found.old result found.new }
    {
        for (at, base) in bases.iter().enumerate() {
            *found = self.next(*found, *base);
            if *found as usize == self.needle.len() {
                return Some(at + 1);
            }
        }
        None
    }

    /// How much of the needle is found with one base more.
    #[inline]
    fn next(&self, found: u32, base: Base) -> u32
        requires { found < length self.now }
        ensures { IsNext self.now found base result }
    {
        self.rows[found as usize][column_of(base)]
    }
}

fn moved_by(by: u64, end: Option<u64>) -> Option<u64>
    requires { IfSome end (λ n. by + n < 2 ^ 64) }
    ensures { result ≡ option_map (λ n. by + n) end }
{
    match end {
        Some(end) => Some(by + end),
        None => None,
    }
}
