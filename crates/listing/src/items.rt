ghost use Rattle.std.specs.Prelude.{◌++◌, codes};
ghost use Rattle.dna_items.specs.declared.items.TplItem.TheVariants.{Group};
ghost use Rattle.fuun_io.specs.Counts.{HasCause};
ghost use Rattle.fuun_io.specs.Written.{Puts};
ghost use Rattle.listing.specs.Texts.{letters_text, pattern_item_text, pattern_text, template_item_text, template_text, pair_text};

use crate::number;
use dna_items::{PatItem, PatList, TplItem, TplList};
use fuun_base::Base;
use fuun_io::{Sink, WriteFault, put_all, put_pieces};
use itoa::Buffer;
use letters_out::put_bases;

/// Writes the items of a pattern. After an error a front of their text is written.
pub fn put_pattern<S: Sink>(items: &PatList, sink: &mut S) -> Result<(), WriteFault>
    ensures puts { Puts result (S.bytes sink.old) (S.bytes sink.new) (pattern_text items.now) }
    ensures cause { HasCause (S.faults sink.old) (S.faults sink.new) result }
{
    put_pattern_items(items.as_slice(), sink)
}

/// Writes some items of a pattern. After an error a front of their text is written.
pub fn put_pattern_items<S: Sink>(items: &[PatItem], sink: &mut S) -> Result<(), WriteFault>
    ensures puts { Puts result (S.bytes sink.old) (S.bytes sink.new) (pattern_text items.now) }
    ensures cause { HasCause (S.faults sink.old) (S.faults sink.new) result }
{
    for item in items {
        put_pattern_item(item, sink)?;
    }
    Ok(())
}

/// Writes the items of a template. After an error a front of their text is written.
pub fn put_template<S: Sink>(items: &TplList, sink: &mut S) -> Result<(), WriteFault>
    ensures puts { Puts result (S.bytes sink.old) (S.bytes sink.new) (template_text items.now) }
    ensures cause { HasCause (S.faults sink.old) (S.faults sink.new) result }
{
    for item in items.as_slice() {
        put_template_item(*item, sink)?;
    }
    Ok(())
}

/// Writes a pattern, an arrow and a template. After an error a front of this text is written.
pub fn put_pair<S: Sink>(
    pattern: &PatList,
    template: &TplList,
    sink: &mut S,
) -> Result<(), WriteFault>
    ensures puts { Puts result (S.bytes sink.old) (S.bytes sink.new) (pair_text pattern.now template.now) }
    ensures cause { HasCause (S.faults sink.old) (S.faults sink.new) result }
{
    put_pattern(pattern, sink)?;
    put_behind_arrow(template, sink)
}

// Writes an arrow and a template.
fn put_behind_arrow<S: Sink>(template: &TplList, sink: &mut S) -> Result<(), WriteFault>
    ensures puts { Puts result (S.bytes sink.old) (S.bytes sink.new) (codes " -> " ++ template_text template.now) }
    ensures cause { HasCause (S.faults sink.old) (S.faults sink.new) result }
{
    put_all(sink, b" -> ")?;
    put_template(template, sink)
}

fn put_pattern_item<S: Sink>(item: &PatItem, sink: &mut S) -> Result<(), WriteFault>
    ensures puts { Puts result (S.bytes sink.old) (S.bytes sink.new) (pattern_item_text item.now) }
    ensures cause { HasCause (S.faults sink.old) (S.faults sink.new) result }
{
    match item {
        PatItem::Base(base) => put_all(sink, &[base.letter()]),
        PatItem::Skip(n) => put_pieces(sink, &[b"!", number(*n, &mut Buffer::new())]),
        PatItem::Search(bases) => put_search(bases.as_slice(), sink),
        PatItem::GroupStart => put_all(sink, b"("),
        PatItem::GroupStop => put_all(sink, b")"),
    }
}

fn put_template_item<S: Sink>(item: TplItem, sink: &mut S) -> Result<(), WriteFault>
    ensures puts { Puts result (S.bytes sink.old) (S.bytes sink.new) (template_item_text item) }
    ensures cause { HasCause (S.faults sink.old) (S.faults sink.new) result }
{
    match item {
        TplItem::Base(base) => put_all(sink, &[base.letter()]),
        TplItem::Group { n, level } => put_group(n, level, sink),
        TplItem::Len(n) => put_pieces(sink, &[b"|", number(n, &mut Buffer::new()), b"|"]),
    }
}

// Writes a reference to a group: the group stands before its level.
fn put_group<S: Sink>(n: u64, level: u64, sink: &mut S) -> Result<(), WriteFault>
    ensures puts { Puts result (S.bytes sink.old) (S.bytes sink.new) (template_item_text (Group n level)) }
    ensures cause { HasCause (S.faults sink.old) (S.faults sink.new) result }
{
    let mut group = Buffer::new();
    let mut quoted = Buffer::new();
    let group = number(n, &mut group);
    let quoted = number(level, &mut quoted);
    put_pieces(sink, &[b"{", group, b",", quoted, b"}"])
}

// Writes a search.
fn put_search<S: Sink>(bases: &[Base], sink: &mut S) -> Result<(), WriteFault>
    ensures puts { Puts result (S.bytes sink.old) (S.bytes sink.new) (codes "<" ++ (letters_text bases.now ++ codes ">")) }
    ensures cause { HasCause (S.faults sink.old) (S.faults sink.new) result }
{
    put_all(sink, b"<")?;
    put_bases(bases, sink)?;
    put_all(sink, b">")
}
