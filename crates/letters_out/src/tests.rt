//! Letters of slices, of ranges and of strands.
ghost use Rattle.std.specs.Prelude.{◌≡◌, ◌<◌};

use crate::slices::MANY;
use crate::{put_bases, put_range, put_strand};
use fuun_base::{Base, BaseList, Steps, read_dna};
use fuun_io::{MemSink, WriteFault};
use std::alloc::Global;
use std::marker::Brand;
use std::process::Abort;
use std::sync::ledger::{Blank, Ledger};
use std::test::Fail;
use strand::{FlatStrand, Strand};

#[test]
fn letters_as_worked(rt: HostRuntime) -> Result<(), Fail> {
    put_ranges::<Brand>(&rt, rt.alloc(), Blank::new(1))?;
    put_long_texts::<Brand>(&rt, rt.alloc(), Blank::new(1))
}

fn put_ranges<L: Ledger>(rt: &impl Abort, alloc: Global, blank: Blank) -> Result<(), Fail>
    requires name { blank.name ≡ L.name }
    requires parts { blank.parts ≡ L.parts }
    requires some { 0 < L.parts }
{
    let mut steps = Steps::<L>::new(blank);
    for (letters, lo, hi, want) in [
        (b"ICFP".as_slice(), 0, 4, b"ICFP".as_slice()),
        (b"ICFP", 1, 3, b"CF"),
        (b"ICFP", 4, 4, b""),
        (b"ICFP", 3, 1, b""),
        (b"ICFP", 9, 4, b""),
        (b"", 0, 0, b""),
    ] {
        let list = read_dna(alloc, letters)?;
        let dna = strand_of(alloc, &list, &mut steps)?;
        let mut sink = MemSink::with_room(alloc, 16)?;
        if hi <= dna.len() {
            put_range(&dna, lo, hi, &mut sink)?;
        }
        assert_eq!(rt; sink.bytes(), want);
        let mut sink = MemSink::with_room(alloc, 16)?;
        put_strand(&dna, &mut sink)?;
        assert_eq!(rt; sink.bytes(), letters);
        let mut sink = MemSink::with_room(alloc, 16)?;
        put_bases(list.as_slice(), &mut sink)?;
        assert_eq!(rt; sink.bytes(), letters);
    }
    Ok(())
}

// Texts of one letter more than each buffer holds; the second write of the longest fails.
fn put_long_texts<L: Ledger>(rt: &impl Abort, alloc: Global, blank: Blank) -> Result<(), Fail>
    requires name { blank.name ≡ L.name }
    requires parts { blank.parts ≡ L.parts }
    requires some { 0 < L.parts }
{
    let mut steps = Steps::<L>::new(blank);
    for (count, call, answer, written) in [
        (64, 1, Ok(()), 64),
        (65, 1, Ok(()), 65),
        (4096, 1, Ok(()), 4096),
        (4097, 1, Ok(()), 4097),
        (65_537, 2, Ok(()), 65_537),
        (65_537, 1, Err(WriteFault), MANY),
    ] {
        let mut list = BaseList::new(alloc);
        for _ in 0..count {
            list.push(Base::F)?;
        }
        let dna = strand_of(alloc, &list, &mut steps)?;
        let mut sink = MemSink::with_room(alloc, 65_537)?;
        sink.fail_at(call)?;
        assert_eq!(rt; put_strand(&dna, &mut sink), answer);
        assert_eq!(rt; sink.bytes().len(), written);
        let mut sink = MemSink::with_room(alloc, 65_537)?;
        sink.fail_at(call)?;
        assert_eq!(rt; put_bases(list.as_slice(), &mut sink), answer);
        assert_eq!(rt; sink.bytes().len(), written);
    }
    Ok(())
}

fn strand_of<L: Ledger>(
    alloc: Global,
    list: &BaseList,
    steps: &mut Steps<L>,
) -> Result<FlatStrand, Fail> {
    if list.len() > 1 << 20 {
        return Ok(FlatStrand::empty(alloc));
    }
    Ok(FlatStrand::build(alloc, list.as_slice(), steps)?)
}
