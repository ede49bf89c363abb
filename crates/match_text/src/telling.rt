//! A match, told.
ghost use Rattle.std.specs.Prelude.{◌≡◌, ◌≢◌, ◌≤◌, drop, length};
ghost use Rattle.dna_items.specs.Balance.{IsBalanced};
ghost use Rattle.fuun_io.specs.Counts.{Rose};
ghost use Rattle.match_text.specs.Told.{PutsMatch};

use crate::groups::{groups, put_groups};
use crate::places::places;
use crate::way::put_way;
use dna_items::PatList;
use fuun_io::Sink;
use listing::ListError;
use std::alloc::Global;
use strand::Strand;

/// Writes how a pattern's items go through the bases from a place on: a line for each part, which is a longest stretch of bases
/// or one other item, up to the first that fails; whether the pattern matches; and a line for each group of a match. Places
/// count from `from`, in bases. Nothing is written before all that takes memory is done.
pub fn put_match<T: Strand, S: Sink>(
    alloc: Global,
    dna: &T,
    from: u64,
    items: &PatList,
    sink: &mut S,
) -> Result<(), ListError>
    requires place { from ≤ length (T.bases dna.now) }
    requires balanced { IsBalanced items.now }
    ensures puts { PutsMatch (drop from (T.bases dna.now)) items.now result (S.bytes sink.old) (S.bytes sink.new) }
    ensures fault { result ≡ Err ListError.WriteFault → Rose (S.faults sink.old) (S.faults sink.new) }
    ensures no_fault { result ≢ Err ListError.WriteFault → S.faults sink.new ≡ S.faults sink.old }
{
    let places = places(alloc, dna, from, items.as_slice())?;
    let groups = groups(alloc, dna, from, items)?;
    put_way(items.as_slice(), places.as_slice(), sink)?;
    put_groups(groups.as_slice(), from, sink)?;
    Ok(())
}
