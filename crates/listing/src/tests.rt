ghost use Rattle.std.specs.Prelude.{◌≡◌, ◌<◌};

use crate::{list_pairs, list_rna, put_pattern, put_template};
use dna_items::{BIG, PatItem, PatList, TplItem, TplList};
use fuun_base::{Base, BaseList, Command, CommandList, Steps, read_dna};
use fuun_io::MemSink;
use rna_code::Profile;
use std::alloc::Global;
use std::marker::Brand;
use std::process::Abort;
use std::sync::ledger::{Blank, Ledger};
use std::test::Fail;
use strand::{FlatStrand, Strand};

#[test]
fn every_item_of_a_pattern(rt: HostRuntime) -> Result<(), Fail> {
    let alloc = rt.alloc();
    let mut sought = BaseList::new(alloc);
    for base in [Base::C, Base::F] {
        sought.push(base)?;
    }
    let mut items = PatList::new(alloc);
    items.push(PatItem::GroupStart)?;
    items.push(PatItem::Skip(2))?;
    items.push(PatItem::GroupStop)?;
    for base in [Base::I, Base::C, Base::F, Base::P] {
        items.push(PatItem::Base(base))?;
    }
    items.push(PatItem::Search(sought))?;
    items.push(PatItem::Search(BaseList::new(alloc)))?;
    items.push(PatItem::Skip(0))?;
    items.push(PatItem::Skip(BIG - 1))?;
    items.push(PatItem::Skip(BIG))?;
    let mut sink = MemSink::with_room(alloc, 64)?;
    put_pattern(&items, &mut sink)?;
    assert_eq!(rt;
        sink.bytes(),
        b"(!2)ICFP<CF><>!0!9223372036854775807!big".as_slice()
    );
    Ok(())
}

#[test]
fn every_item_of_a_template(rt: HostRuntime) -> Result<(), Fail> {
    let alloc = rt.alloc();
    let mut items = TplList::new(alloc);
    for item in [
        TplItem::Base(Base::P),
        TplItem::Base(Base::I),
        TplItem::Group { n: 1, level: 0 },
        TplItem::Group { n: BIG, level: 7 },
        TplItem::Group {
            n: 0,
            level: BIG - 1,
        },
        TplItem::Len(12),
        TplItem::Len(BIG),
    ] {
        items.push(item)?;
    }
    let mut sink = MemSink::with_room(alloc, 64)?;
    put_template(&items, &mut sink)?;
    assert_eq!(rt;
        sink.bytes(),
        b"PI{1,0}{big,7}{0,9223372036854775807}|12||big|".as_slice()
    );
    Ok(())
}

#[test]
fn the_names_of_commands(rt: HostRuntime) -> Result<(), Fail> {
    let alloc = rt.alloc();
    let mut commands = CommandList::new(alloc);
    for letters in [b"PIPIIIC".as_slice(), b"PPP", b"", b"PIPIIFP"] {
        let bases = read_dna(alloc, letters)?;
        let command = Command::from_bases(bases.as_slice()).ok_or("more than seven letters")?;
        commands.push(command)?;
    }
    for (profile, lines) in [
        (
            Profile::Plain,
            b"PIPIIIC black\nPPP other\n other\nPIPIIFP other\n".as_slice(),
        ),
        (
            Profile::Wide,
            b"PIPIIIC black\nPPP other\n other\nPIPIIFP copy\n",
        ),
    ] {
        let mut sink = MemSink::with_room(alloc, 64)?;
        list_rna(&commands, profile, &mut sink)?;
        assert_eq!(rt; sink.bytes(), lines);
    }
    Ok(())
}

#[test]
fn the_pairs_of_a_dna(rt: HostRuntime) -> Result<(), Fail> {
    list_worked::<Brand>(&rt, rt.alloc(), Blank::new(1))
}

fn list_worked<L: Ledger>(rt: &impl Abort, alloc: Global, blank: Blank) -> Result<(), Fail>
    requires name { blank.name ≡ L.name }
    requires parts { blank.parts ≡ L.parts }
    requires some { 0 < L.parts }
{
    let mut steps = Steps::<L>::new(blank);
    for (letters, count, lines) in [
        (
            b"IIPIPICPIICICIIFICCIFPPIICCFPC".as_slice(),
            0,
            b"".as_slice(),
        ),
        (
            b"IIPIPICPIICICIIFICCIFPPIICCFPC",
            1,
            b"0 (!2)P -> PI{0,0}\n",
        ),
        (
            b"IIPIPICPIICICIIFICCIFPPIICCFPC",
            2,
            b"0 (!2)P -> PI{0,0}\n26 finish\n",
        ),
        (b"IICIIFCIICPIIC", 9, b"0  -> \n6 I -> F\n14 finish\n"),
        (b"IIIPIPIIIPIICIICII", 2, b"0  -> \n16 finish\n"),
    ] {
        let bases = read_dna(alloc, letters)?;
        let dna = FlatStrand::build(alloc, bases.as_slice(), &mut steps)?;
        let mut sink = MemSink::with_room(alloc, 64)?;
        list_pairs(alloc, &dna, count, &mut sink)?;
        assert_eq!(rt; sink.bytes(), lines);
    }
    Ok(())
}
