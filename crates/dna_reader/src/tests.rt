ghost use Rattle.std.specs.Prelude.{◌≡◌, ◌<◌, ◌≤◌, length};

use crate::{
    Discard, Pair, ReadingError, RnaLines, RnaTaker, read_consts, read_numeral, read_pair,
    read_pattern, read_template,
};
use dna_items::{BIG, PatItem, TplItem};
use fuun_base::{CommandList, Steps, read_dna};
use fuun_io::MemSink;
use std::alloc::Global;
use std::marker::Brand;
use std::process::Abort;
use std::sync::ledger::{Blank, Ledger};
use std::test::Fail;
use strand::{FlatStrand, Strand};

const FIRST: &str = "IIPIPICPIICICIIFICCIFPPIICCFPC";

#[test]
fn worked_readings(rt: HostRuntime) -> Result<(), Fail> {
    patterns::<Brand>(&rt, rt.alloc(), Blank::new(1))?;
    templates::<Brand>(&rt, rt.alloc(), Blank::new(1))?;
    prefixes::<Brand>(&rt, rt.alloc(), Blank::new(1))?;
    numbers::<Brand>(&rt, rt.alloc(), Blank::new(1))
}

fn patterns<L: Ledger>(rt: &impl Abort, alloc: Global, blank: Blank) -> Result<(), Fail>
    requires name { blank.name ≡ L.name }
    requires parts { blank.parts ≡ L.parts }
    requires some { 0 < L.parts }
{
    let mut steps = Steps::<L>::new(blank);
    for (letters, text, commands) in [
        (FIRST, "(!2)P 16", ""),
        ("IFFFPIICCIICPCFCF", "<CF> 8", ""),
        ("IIC", " 3", ""),
        ("IIPIIFIIF", "() 9", ""),
        ("IIIFPCFPCFCFPICIIF", "ICFP 18", "FPCFPCF,"),
        ("IPCCFCPIIFP", "!11 10", ""),
        ("", "finish", ""),
        ("IPCC", "finish", ""),
        ("IF", "finish", ""),
        ("II", "finish", ""),
        ("III", "finish", ","),
        ("IIIPI", "finish", "PI,"),
        ("IIPIIC", "finish", ""),
    ] {
        let dna = flat(alloc, letters, &mut steps)?;
        let mut rna = CommandList::new(alloc);
        let read = pattern_text(alloc, &dna, &mut rna)?;
        assert_eq!(rt; read.as_str(), text, "in {letters}");
        assert_eq!(rt; rna_text(alloc, &rna)?.as_str(), commands, "in {letters}");
    }
    Ok(())
}

fn templates<L: Ledger>(rt: &impl Abort, alloc: Global, blank: Blank) -> Result<(), Fail>
    requires name { blank.name ≡ L.name }
    requires parts { blank.parts ≡ L.parts }
    requires some { 0 < L.parts }
{
    let mut steps = Steps::<L>::new(blank);
    for (letters, text, taken) in [
        ("ICCIFPPIICCFPC", "PI{0,0} 10", 0),
        ("IIPPIICCF", "|0| 7", 0),
        ("IPCPFCPIIF", "{2,1} 10", 0),
        ("IIIIIIIIIIIIICIIIPIIIIC", " 23", 2),
        ("IPCPF", "finish", 0),
        ("IIPCC", "finish", 0),
        ("IIIPIPIIIC", "finish", 1),
    ] {
        let dna = flat(alloc, letters, &mut steps)?;
        let mut rna = Discard::new();
        let read = template_text(alloc, &dna, 0, &mut rna)?;
        assert_eq!(rt; read.as_str(), text, "in {letters}");
        assert_eq!(rt; rna.count(), taken, "in {letters}");
    }
    Ok(())
}

/// Of the first worked DNA the pattern has 16 bases, and the template behind it ten.
fn prefixes<L: Ledger>(rt: &impl Abort, alloc: Global, blank: Blank) -> Result<(), Fail>
    requires name { blank.name ≡ L.name }
    requires parts { blank.parts ≡ L.parts }
    requires some { 0 < L.parts }
{
    let mut steps = Steps::<L>::new(blank);
    let whole = read_dna(alloc, FIRST.as_bytes())?;
    let bases = whole.as_slice();
    assert_eq!(rt; bases.len(), 30);
    for count in 0..31 {
        let dna = FlatStrand::build(alloc, &bases[..count], &mut steps)?;
        let pattern = pattern_text(alloc, &dna, &mut Discard::new())?;
        let want = if count < 16 { "finish" } else { "(!2)P 16" };
        assert_eq!(rt; pattern.as_str(), want, "at {count}");
        if dna.len() >= 16 {
            let template = template_text(alloc, &dna, 16, &mut Discard::new())?;
            let want = if count < 26 { "finish" } else { "PI{0,0} 26" };
            assert_eq!(rt; template.as_str(), want, "at {count}");
        }
        let pair = read_pair(alloc, &dna, 0, &mut Discard::new());
        let both = matches!(pair, Ok(Pair { next: 26, .. }));
        assert_eq!(rt; both, count >= 26, "at {count}");
    }
    Ok(())
}

fn numbers<L: Ledger>(rt: &impl Abort, alloc: Global, blank: Blank) -> Result<(), Fail>
    requires name { blank.name ≡ L.name }
    requires parts { blank.parts ≡ L.parts }
    requires some { 0 < L.parts }
{
    let mut steps = Steps::<L>::new(blank);
    for (digit, count, last, want) in [
        ("C", 199, "P", Some((BIG, 200))),
        ("C", 32, "P", Some(((1 << 32) - 1, 33))),
        ("I", 62, "CP", Some((1 << 62, 64))),
        ("F", 63, "CP", Some((BIG, 65))),
        ("I", 254, "P", Some((0, 255))),
        ("I", 255, "P", Some((0, 256))),
        ("I", 300, "CP", Some((BIG, 302))),
        ("C", 300, "", None),
        ("", 0, "", None),
    ] {
        let letters = repeated(alloc, digit, count, last)?;
        let dna = flat(alloc, letters.as_str(), &mut steps)?;
        assert_eq!(rt; read_numeral(&dna, 0), want, "at {count} {digit}");
    }
    for (digit, count, last, len, next) in [
        ("C", 255, "ICP", 257, 258),
        ("F", 255, "II", 255, 255),
        ("IC", 300, "IPC", 300, 600),
        ("P", 3, "I", 3, 3),
    ] {
        let letters = repeated(alloc, digit, count, last)?;
        let dna = flat(alloc, letters.as_str(), &mut steps)?;
        let (constants, place) = read_consts(alloc, &dna, 0)?;
        assert_eq!(rt; (constants.len(), place), (len, next), "at {count} {digit}");
    }
    Ok(())
}

#[test]
fn lines_stop_at_a_fault(rt: HostRuntime) -> Result<(), Fail> {
    two_lines::<Brand>(&rt, rt.alloc(), Blank::new(1))
}

/// Bytes are written one by one, and each write fails in turn: what is before it stands, and nothing behind it.
fn two_lines<L: Ledger>(rt: &impl Abort, alloc: Global, blank: Blank) -> Result<(), Fail>
    requires name { blank.name ≡ L.name }
    requires parts { blank.parts ≡ L.parts }
    requires some { 0 < L.parts }
{
    let mut steps = Steps::<L>::new(blank);
    let dna = flat(alloc, "IIIFPCFPCFCIIIPIPIPICIIC", &mut steps)?;
    let lines = b"FPCFPCF\nPIPIPIC\n";
    for fault in 0..lines.len() + 1 {
        let mut sink = MemSink::with_room(alloc, 20)?;
        sink.set_most(1);
        sink.fail_at(fault as u64)?;
        let read = read_pattern(alloc, &dna, 0, &mut RnaLines::new(&mut sink));
        assert_eq!(rt; sink.bytes(), &lines[..fault], "at {fault}");
        let failed = matches!(read, Err(ReadingError::TakerFailed));
        assert_eq!(rt; failed, fault < lines.len(), "at {fault}");
    }
    Ok(())
}

fn flat<L: Ledger>(alloc: Global, letters: &str, steps: &mut Steps<L>) -> Result<FlatStrand, Fail> {
    let list = read_dna(alloc, letters.as_bytes())?;
    if list.len() > 1000 {
        return Ok(FlatStrand::empty(alloc));
    }
    Ok(FlatStrand::build(alloc, list.as_slice(), steps)?)
}

fn repeated(alloc: Global, unit: &str, count: usize, last: &str) -> Result<String, Fail> {
    let mut text = String::new(alloc);
    for _ in 0..count {
        text.push_str(unit)?;
    }
    text.push_str(last)?;
    Ok(text)
}

fn pattern_text<T: RnaTaker>(alloc: Global, dna: &FlatStrand, rna: &mut T) -> Result<String, Fail>
    requires { T.taken rna.old ≡ 0 }
{
    match read_pattern(alloc, dna, 0, rna) {
        Ok((items, next)) => {
            let mut text = String::new(alloc);
            for item in items.as_slice() {
                push_pattern_item(alloc, &mut text, item)?;
            }
            text.push_str(format!(in alloc; " {next}")?.as_str())?;
            Ok(text)
        }
        Err(ReadingError::RanOut) => Ok(String::from_str(alloc, "finish")?),
        Err(_) => Ok(String::from_str(alloc, "no memory")?),
    }
}

fn push_pattern_item(alloc: Global, text: &mut String, item: &PatItem) -> Result<(), Fail> {
    match item {
        PatItem::Base(base) => text.push(char::from(base.letter()))?,
        PatItem::Skip(n) => text.push_str(format!(in alloc; "!{n}")?.as_str())?,
        PatItem::Search(needle) => {
            text.push('<')?;
            for base in needle.as_slice() {
                text.push(char::from(base.letter()))?;
            }
            text.push('>')?;
        }
        PatItem::GroupStart => text.push('(')?,
        PatItem::GroupStop => text.push(')')?,
    }
    Ok(())
}

fn template_text(
    alloc: Global,
    dna: &FlatStrand,
    place: u64,
    rna: &mut Discard,
) -> Result<String, Fail>
    requires place { place ≤ length dna.now }
    requires room { rna.old ≤ 100 }
{
    match read_template(alloc, dna, place, rna) {
        Ok((items, next)) => {
            let mut text = String::new(alloc);
            for item in items.as_slice() {
                push_template_item(alloc, &mut text, *item)?;
            }
            text.push_str(format!(in alloc; " {next}")?.as_str())?;
            Ok(text)
        }
        Err(ReadingError::RanOut) => Ok(String::from_str(alloc, "finish")?),
        Err(_) => Ok(String::from_str(alloc, "no memory")?),
    }
}

fn push_template_item(alloc: Global, text: &mut String, item: TplItem) -> Result<(), Fail> {
    match item {
        TplItem::Base(base) => text.push(char::from(base.letter()))?,
        TplItem::Group { n, level } => {
            text.push_str(format!(in alloc; "{{{n},{level}}}")?.as_str())?
        }
        TplItem::Len(n) => text.push_str(format!(in alloc; "|{n}|")?.as_str())?,
    }
    Ok(())
}

/// The letters of each command, and a comma behind it.
fn rna_text(alloc: Global, rna: &CommandList) -> Result<String, Fail> {
    let mut text = String::new(alloc);
    for command in rna.as_slice() {
        let mut letters = [0; 7];
        let count = command.letters(&mut letters);
        for letter in &letters[..count] {
            text.push(char::from(*letter))?;
        }
        text.push(',')?;
    }
    Ok(text)
}
