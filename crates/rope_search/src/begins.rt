ghost use Rattle.std.specs.Prelude.{◌≤◌, length};
ghost use Rattle.rope_search.specs.Begins.{BeginsFirst};

use crate::KmpTable;
use rope_core::Rope;

impl KmpTable {
    /// The least place at or after `lo` from which the needle stands as far as the rope goes. At the rope's end nothing is
    /// asked of it.
    pub fn begin_in(&self, rope: &Rope, lo: u64) -> u64
        requires { lo ≤ length rope.now.bases }
        ensures { BeginsFirst self.now rope.now.bases lo result }
    {
        if self.needle.len() == 0 {
            return lo;
        }
        let Some(node) = rope.root() else {
            return lo;
        };
        let mut found = 0;
        match self.end_of(node, lo, &mut found) {
            Some(end) => end - self.needle.len() as u64,
            None => node.len() - found as u64,
        }
    }
}
