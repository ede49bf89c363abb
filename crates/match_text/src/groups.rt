//! The groups of a match, and their lines.
ghost use Rattle.std.specs.Prelude.{ℕ, List, ◌≤◌, drop, length, map, IfOk};
ghost use Rattle.dna_items.specs.Balance.{IsBalanced};
ghost use Rattle.fuun_io.specs.Counts.{HasCause};
ghost use Rattle.fuun_io.specs.Written.{Puts};
ghost use Rattle.match_text.specs.Groups.{AreMovedGroups, moved_back};
ghost use Rattle.match_text.specs.Told.{LeadSoFar};
ghost use Rattle.match_text.specs.Way.{group_line, group_lines};

use dna_items::PatList;
use fuun_base::NoMemory;
use fuun_io::{Sink, WriteFault, put_pieces};
use itoa::Buffer;
use matcher::{GroupList, MatchEnd, match_at};
use std::alloc::Global;
use strand::Strand;

/// The groups of the match of items from a place on, as places of the strand, and none where there is no match.
pub(crate) fn groups<T: Strand>(
    alloc: Global,
    dna: &T,
    from: u64,
    items: &PatList,
) -> Result<GroupList, NoMemory>
    requires place { from ≤ length (T.bases dna.now) }
    requires balanced { IsBalanced items.now }
    ensures { IfOk result (λ groups. (places : List ℕ) → LeadSoFar (drop from (T.bases dna.now)) items.now places → AreMovedGroups from items.now places groups) }
{
    match match_at(alloc, dna, from, items)? {
        MatchEnd::Matched { groups, .. } => Ok(groups),
        MatchEnd::NoMatch => Ok(GroupList::new(alloc)),
    }
}

/// Writes a line for each group, its places counted from a place of the strand.
pub(crate) fn put_groups<S: Sink>(
    groups: &[(u64, u64)],
    from: u64,
    sink: &mut S,
) -> Result<(), WriteFault>
    ensures puts { Puts result (S.bytes sink.old) (S.bytes sink.new) (group_lines 0 (map (moved_back from) groups.now)) }
    ensures cause { HasCause (S.faults sink.old) (S.faults sink.new) result }
{
    for (number, range) in groups.iter().enumerate() {
        put_group(number as u64, range, from, sink)?;
    }
    Ok(())
}

fn put_group<S: Sink>(
    number: u64,
    range: &(u64, u64),
    from: u64,
    sink: &mut S,
) -> Result<(), WriteFault>
    ensures puts { Puts result (S.bytes sink.old) (S.bytes sink.new) (group_line number (moved_back from range.now)) }
    ensures cause { HasCause (S.faults sink.old) (S.faults sink.new) result }
{
    let mut number_buffer = Buffer::new();
    let mut start_buffer = Buffer::new();
    let mut stop_buffer = Buffer::new();
    let number = number_buffer.format(number).as_bytes();
    let start = start_buffer.format(range.0.saturating_sub(from)).as_bytes();
    let stop = stop_buffer.format(range.1.saturating_sub(from)).as_bytes();
    put_pieces(sink, &[number, b" ", start, b" ", stop, b"\n"])
}
