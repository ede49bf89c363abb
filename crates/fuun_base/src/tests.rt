ghost use Rattle.std.specs.Prelude.{◌≡◌, ◌+◌, ◌<◌};

use super::*;
use std::alloc::Global;
use std::marker::Brand;
use std::sync::ledger::{Blank, Ledger};
use std::test::Fail;

fn bases_of(alloc: Global, text: &str) -> Result<BaseList, Fail> {
    Ok(read_dna(alloc, text.as_bytes())?)
}

fn tick_twice<L: Ledger>(steps: &mut Steps<L>)
    ensures { steps.new ≡ steps.old + 2 }
{
    steps.tick();
    steps.tick();
}

fn count_two<L: Ledger>(blank: Blank)
    requires name { blank.name ≡ L.name }
    requires parts { blank.parts ≡ L.parts }
    requires some { 0 < L.parts }
{
    let mut steps = Steps::<L>::new(blank);
    tick_twice(&mut steps);
}

#[test]
fn letters_stand_for_bases(rt: HostRuntime) {
    for (letter, base) in [
        (b'I', Base::I),
        (b'C', Base::C),
        (b'F', Base::F),
        (b'P', Base::P),
    ] {
        assert_eq!(rt; base.letter(), letter);
        assert_eq!(rt; Base::from_letter(letter), Some(base));
    }
    for other in [b'i', b'c', b'f', b'p', b'A', b' ', b'\n', 0, 255] {
        assert_eq!(rt; Base::from_letter(other), None, "at {other}");
    }
}

// Seventy letters: more than are read at once.
const LONG: &str = "IIPIPICPIICICIIFICCIFPPIICCFPCICFPICFPICFPICFPICFPICFPICFPICFPICFPICFP";

#[test]
fn dna_files_hold_letters_and_blanks(rt: HostRuntime) -> Result<(), Fail> {
    let read = bases_of(rt.alloc(), "ICFP")?;
    assert_eq!(rt;
        read.as_slice(),
        [Base::I, Base::C, Base::F, Base::P].as_slice()
    );
    for text in ["I\nCFP", " I\tC\rF\nP \n", "ICFP "] {
        assert_eq!(rt;
            bases_of(rt.alloc(), text)?.as_slice(),
            read.as_slice(),
            "at {text:?}"
        );
    }
    assert!(rt; bases_of(rt.alloc(), "")?.is_empty());
    let mut text = String::new(rt.alloc());
    text.push_str(LONG)?;
    assert_eq!(rt; bases_of(rt.alloc(), text.as_str())?.len(), 70);
    text.push_str("\n ICFPX")?;
    for (text, place) in [
        ("IIPIPC\nXCF", 7),
        ("iip", 0),
        ("IXPx", 1),
        (text.as_str(), 76),
    ] {
        let refused = read_dna(rt.alloc(), text.as_bytes()).err();
        assert_eq!(rt; refused, Some(DnaError::BadBase { place }), "at {text}");
    }
    Ok(())
}

// The letters of some commands, each with a full stop behind it.
fn letters_of(alloc: Global, list: &CommandList) -> Result<String, Fail> {
    let mut text = String::new(alloc);
    for command in list.as_slice() {
        let mut letters = [0; 7];
        let len = command.letters(&mut letters);
        for letter in letters[..len].iter() {
            text.push(char::from(*letter))?;
        }
        text.push('.')?;
    }
    Ok(text)
}

#[test]
fn rna_files_hold_a_command_a_line(rt: HostRuntime) -> Result<(), Fail> {
    for (text, commands) in [
        ("", ""),
        ("\n", "."),
        ("PIPIIIC", "PIPIIIC."),
        ("PIPIIIC\n", "PIPIIIC."),
        ("PIPIIIC\nPPP\n\n", "PIPIIIC.PPP.."),
        ("\nPPP", ".PPP."),
        (" P\tI\r\n \nC", "PI..C."),
        ("P\n ", "P.."),
    ] {
        let list = read_rna(rt.alloc(), text.as_bytes())?;
        let letters = letters_of(rt.alloc(), &list)?;
        assert_eq!(rt; letters.as_str(), commands, "at {text:?}");
    }
    for (text, line) in [
        ("PIPIIIC\nPIPIIICP\n", 2),
        ("PIPIIICP", 1),
        ("P\n\nIx\nPIPIIICP", 3),
        ("p", 1),
        ("PIPIIIC \n P I P I I I C P", 2),
    ] {
        let refused = read_rna(rt.alloc(), text.as_bytes()).err();
        assert_eq!(rt; refused, Some(RnaError::BadRna { line }), "at {text:?}");
    }
    Ok(())
}

#[test]
fn quotes_are_appended(rt: HostRuntime) -> Result<(), Fail> {
    let mut out = Vec::new(rt.alloc());
    let mut all = String::new(rt.alloc());
    for (text, quoted) in [("ICFP", "CFPIC"), ("", ""), ("P", "IC"), ("PPI", "ICICC")] {
        quote_into(bases_of(rt.alloc(), text)?.as_slice(), &mut out)?;
        all.push_str(quoted)?;
        assert_eq!(rt;
            out.as_slice(),
            bases_of(rt.alloc(), all.as_str())?.as_slice(),
            "at {text}"
        );
    }
    Ok(())
}

#[test]
fn numbers_are_appended(rt: HostRuntime) -> Result<(), Fail> {
    for (n, text) in [
        (0, "P"),
        (1, "CP"),
        (2, "ICP"),
        (8, "IIICP"),
        (1_000_000, "IIIIIICIICIIIICICCCCP"),
    ] {
        let mut out = Vec::new(rt.alloc());
        asnat_into(n, &mut out)?;
        assert_eq!(rt;
            out.as_slice(),
            bases_of(rt.alloc(), text)?.as_slice(),
            "at {n}"
        );
    }
    let mut out = Vec::new(rt.alloc());
    asnat_into(u64::MAX, &mut out)?;
    assert_eq!(rt; out.len(), 65);
    Ok(())
}

#[test]
fn lengths_of_quotes_are_counted(rt: HostRuntime) {
    const MOST: u64 = 1 << 41;
    let nothing = Tally::of(&[]);
    let one = Tally::of(&[Base::I]);
    let each = Tally::of(&[Base::I, Base::C, Base::F, Base::P]);
    for (level, len) in [(0, 4), (1, 5), (4, 9), (7, 16), (100, 1_834_757_309)] {
        assert_eq!(rt; each.quoted_len(level, MOST), Some(len), "at {level}");
    }
    for level in [163, 164, 1 << 63, u64::MAX] {
        assert_eq!(rt; one.quoted_len(level, MOST), None, "at {level}");
        assert_eq!(rt; nothing.quoted_len(level, 0), Some(0), "at {level}");
    }
    assert_eq!(rt; one.quoted_len(144, MOST), Some(2_149_447_018_054));
    assert_eq!(rt; each.quoted_len(4, 9), Some(9));
    assert_eq!(rt; each.quoted_len(4, 8), None);
}

#[test]
fn commands_have_seven_places(rt: HostRuntime) -> Result<(), Fail> {
    let command = Command::from_bases(&[Base::P, Base::I, Base::C]).ok_or("three")?;
    let mut out = *b".......";
    assert_eq!(rt; command.letters(&mut out), 3);
    assert_eq!(rt; out, *b"PIC....");
    assert_eq!(rt; command.len(), 3);
    assert!(rt; Command::from_bases(&[Base::F; 7]).is_some());
    assert!(rt; Command::from_bases(&[Base::F; 8]).is_none());
    assert!(rt; Command::from_bases(&[]) != Some(command));
    let mut list = CommandList::new(rt.alloc());
    list.push(command)?;
    assert_eq!(rt; list.get(0), Some(&command));
    assert_eq!(rt; list.get(1), None);
    Ok(())
}

#[test]
fn steps_are_counted() {
    count_two::<Brand>(Blank::new(1));
}
