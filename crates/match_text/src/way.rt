//! The lines of a match's parts.
ghost use Rattle.std.specs.Prelude.{◌≡◌, ◌<◌, ◌≤◌, ◌∷◌, ◌++◌, codes, decimal, drop, length, take, false, true};
ghost use Rattle.std.specs.List.{list_all};
ghost use Rattle.fuun_io.specs.Counts.{HasCause};
ghost use Rattle.fuun_io.specs.Written.{Puts};
ghost use Rattle.matcher.specs.Match.{last_place};
ghost use Rattle.match_text.specs.Way.{going, is_base, is_stretch, part_line, parts, way};

use dna_items::PatItem;
use fuun_io::{Sink, WriteFault, put_all, put_pieces};
use itoa::Buffer;
use listing::put_pattern_items;

/// Writes the lines of a pattern's parts, and whether it matches, by the places that its items lead through.
pub(crate) fn put_way<S: Sink>(
    items: &[PatItem],
    places: &[u64],
    sink: &mut S,
) -> Result<(), WriteFault>
    requires { length places.now ≤ length items.now }
    ensures puts { Puts result (S.bytes sink.old) (S.bytes sink.new) (way (parts items.now) 0 places.now) }
    ensures cause { HasCause (S.faults sink.old) (S.faults sink.new) result }
{
    let mut next = 0;
    let mut at = 0;
    'parts: while next < items.len() {
        let len = part_len(&items[next..]);
        put_part(&items[next..next + len], at, &places[next..], sink)?;
        if places.len() - next < len {
            return put_all(sink, b"no match\n");
        }
        at = places[next + len - 1];
        next += len;
    }
    put_all(sink, b"matches\n")
}

/// How many items the first part has.
fn part_len(items: &[PatItem]) -> usize
    requires { 0 < length items.now }
    ensures some { 0 < result }
    ensures within { result ≤ length items.now }
    ensures first { parts items.now ≡ take result items.now ∷ parts (drop result items.now) }
{
    bases_ahead(items).max(1)
}

/// How many bases the items begin with.
fn bases_ahead(items: &[PatItem]) -> usize
    ensures within { result ≤ length items.now }
    ensures bases { list_all is_base (take result items.now) ≡ true }
    ensures longest { is_stretch (drop result items.now) ≡ false }
{
    let mut count = 0;
    'bases: while count < items.len() {
        if !is_base(&items[count]) {
            return count;
        }
        count += 1;
    }
    count
}

fn is_base(item: &PatItem) -> bool
    ensures { result ≡ is_base item.now }
{
    matches!(item, PatItem::Base(_))
}

/// Writes the line of a part, which is tried from a place on and leads through the first of the further places.
fn put_part<S: Sink>(
    part: &[PatItem],
    at: u64,
    further: &[u64],
    sink: &mut S,
) -> Result<(), WriteFault>
    requires { 0 < length part.now }
    ensures puts { Puts result (S.bytes sink.old) (S.bytes sink.new) (part_line part.now at further.now) }
    ensures cause { HasCause (S.faults sink.old) (S.faults sink.new) result }
{
    put_pattern_items(part, sink)?;
    put_going(part, at, further, sink)
}

/// Writes from where a part is tried, and how far it goes.
fn put_going<S: Sink>(
    part: &[PatItem],
    at: u64,
    further: &[u64],
    sink: &mut S,
) -> Result<(), WriteFault>
    requires { 0 < length part.now }
    ensures puts { Puts result (S.bytes sink.old) (S.bytes sink.new) (codes " " ++ (decimal at ++ (going part.now at further.now ++ codes "\n"))) }
    ensures cause { HasCause (S.faults sink.old) (S.faults sink.new) result }
{
    let mut at_buffer = Buffer::new();
    let mut last_buffer = Buffer::new();
    let from = at_buffer.format(at).as_bytes();
    if part.len() <= further.len() {
        let last = last_buffer
            .format(last_place(at, &further[..part.len()]))
            .as_bytes();
        return put_pieces(sink, &[b" ", from, b" -> ", last, b"\n"]);
    }
    if is_base(&part[0]) {
        let last = last_buffer.format(last_place(at, further)).as_bytes();
        return put_pieces(sink, &[b" ", from, b" fails at ", last, b"\n"]);
    }
    put_pieces(sink, &[b" ", from, b" fails\n"])
}

/// The last of a place and further ones.
fn last_place(at: u64, further: &[u64]) -> u64
    ensures { result ≡ last_place (at ∷ further.now) }
{
    if further.len() == 0 {
        return at;
    }
    further[further.len() - 1]
}
