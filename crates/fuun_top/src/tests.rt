ghost use Rattle.std.specs.Prelude.{◌≡◌, ◌<◌};

use crate::{InFile, Status, fuun, put_status};
use fuun_base::{Steps, asnat_into, read_dna};
use fuun_io::{MemFolder, MemSink};
use std::alloc::{AllocError, Global};
use std::marker::Brand;
use std::process::Abort;
use std::sync::ledger::{Blank, Ledger};
use std::test::Fail;

/// The words of a line, between its spaces.
pub(crate) fn words(alloc: Global, line: &str) -> Result<Vec<String>, AllocError> {
    let mut words = Vec::new(alloc);
    for word in line.split(' ') {
        words.push(String::from_str(alloc, word)?)?;
    }
    Ok(words)
}

/// The file `p` before a DNA.
const PREFIX: &[u8] = b"IIPIPICPIICICIIFICC";

/// Asks for the words over the file `a`, and compares the status and the bytes.
fn expect<L: Ledger>(
    rt: &impl Abort,
    alloc: Global,
    blank: Blank,
    words: &[String],
    file: &[u8],
    status: Status,
    bytes: &[u8],
) -> Result<(), Fail>
    requires name { blank.name ≡ L.name }
    requires parts { blank.parts ≡ L.parts }
    requires some { 0 < L.parts }
{
    expect_with::<L>(rt, alloc, blank, words, [file, PREFIX], status, bytes)
}

/// Asks for the words over the files `a` and `p`, and compares the status and the bytes.
fn expect_with<L: Ledger>(
    rt: &impl Abort,
    alloc: Global,
    blank: Blank,
    words: &[String],
    files: [&[u8]; 2],
    status: Status,
    bytes: &[u8],
) -> Result<(), Fail>
    requires name { blank.name ≡ L.name }
    requires parts { blank.parts ≡ L.parts }
    requires some { 0 < L.parts }
{
    let mut steps = Steps::<L>::new(blank);
    let mut folder = MemFolder::new(alloc);
    folder.add("a", files[0])?;
    folder.add("p", files[1])?;
    let mut sink = MemSink::with_room(alloc, 4096)?;
    let answer = fuun(alloc, words, &mut folder, &mut sink, &mut steps);
    assert_eq!(rt; answer, status);
    assert_eq!(rt; sink.bytes(), bytes);
    Ok(())
}

/// The pattern (!2)P and the template PI{0,0}, before CFPC.
pub(crate) const ROW: &[u8] = b"IIPIPICPIICICIIFICCIFPPIICCFPC";

/// A command of RNA, and a pattern and a template that put all of these bases back twice.
pub(crate) const REPEATING: &[u8] =
    b"IIIPIPIIICIIPIPCCCIICPIICIICIFPPIFPPIICIIIPIPIIICIIPIPCCCIICPIICIICIFPPIFPPIIC";

/// The pattern (!8) and seven times the group, before eight C: 55 bases, and 56 behind the first attempt.
const GROWING: &[u8] = b"IIPIPIIICPIICIICIFPPIFPPIFPPIFPPIFPPIFPPIFPPIICCCCCCCCC";

#[test]
fn rna_of_small_files(rt: HostRuntime) -> Result<(), Fail> {
    for (line, file, status, bytes) in [
        (
            "rna --dna a --budget 1",
            ROW,
            Status::OutOfBudget,
            b"".as_slice(),
        ),
        ("rna --dna a --budget 2", ROW, Status::Done, b"".as_slice()),
        (
            "rna --dna a --budget 1",
            b"IIIPIPIIIC".as_slice(),
            Status::Done,
            b"PIPIIIC\n".as_slice(),
        ),
        (
            "rna --dna a --budget 0",
            b"IIIPIPIIIC".as_slice(),
            Status::OutOfBudget,
            b"".as_slice(),
        ),
        (
            "rna --budget=0002 --dna a",
            b"IIIPI".as_slice(),
            Status::Done,
            b"PI\n".as_slice(),
        ),
        (
            "rna --dna a",
            b"III".as_slice(),
            Status::Done,
            b"\n".as_slice(),
        ),
        ("rna --dna a", b"".as_slice(), Status::Done, b"".as_slice()),
    ] {
        let words = words(rt.alloc(), line)?;
        expect::<Brand>(&rt, rt.alloc(), Blank::new(1), &words, file, status, bytes)?;
    }
    Ok(())
}

#[test]
fn dna_of_small_files(rt: HostRuntime) -> Result<(), Fail> {
    let one = "dna --dna a --budget 1";
    for (line, file, bytes) in [
        (one, ROW, b"PICFC\n".as_slice()),
        (
            one,
            b"I\nI\tP I\nP\tI C\nP\tI I\nC\tI C\nI\tI F\nI\tC C\nI\tF P\nP\tI I\nC\tC F\nP\tC ".as_slice(),
            b"PICFC\n".as_slice(),
        ),
        (
            one,
            b"IIPIPICPIICICIIFICCIFCCCPPIICCFPC".as_slice(),
            b"PIICCFCFFPC\n".as_slice(),
        ),
        (
            one,
            b"IIPIPIICPIICIICCIICFCFC".as_slice(),
            b"I\n".as_slice(),
        ),
        (
            one,
            b"IIPIIPIPCPIICIPCPIICIICIFPPIICFP".as_slice(),
            b"F\n".as_slice(),
        ),
        (
            "dna --prefix p --dna a --budget 1",
            b"IFPPIICCFPC".as_slice(),
            b"PICFC\n".as_slice(),
        ),
        (
            "dna --dna a --budget 2 --limit 56",
            GROWING,
            b"CCCCCCCCCCCCCCCCCCCCCCCCCCCCCCCCCCCCCCCCCCCCCCCCCCCCCCCC\n".as_slice(),
        ),
    ] {
        let words = words(rt.alloc(), line)?;
        expect::<Brand>(
            &rt,
            rt.alloc(),
            Blank::new(1),
            &words,
            file,
            Status::Done,
            bytes,
        )?;
    }
    Ok(())
}

#[test]
fn names_and_listings_of_small_files(rt: HostRuntime) -> Result<(), Fail> {
    for (line, file, bytes) in [
        (
            "names --rna a",
            b"PIPIIIC\nPPP\n\n".as_slice(),
            b"PIPIIIC black\nPPP other\n other\n".as_slice(),
        ),
        (
            "names --rna a",
            b"PIPIIIC".as_slice(),
            b"PIPIIIC black\n".as_slice(),
        ),
        (
            "names --rna a",
            b"PIPIIFP\n".as_slice(),
            b"PIPIIFP other\n".as_slice(),
        ),
        (
            "names --profile wide --rna a",
            b"PIPIIFP\n".as_slice(),
            b"PIPIIFP copy\n".as_slice(),
        ),
        (
            "list --dna a --count 2",
            ROW,
            b"0 (!2)P -> PI{0,0}\n26 finish\n".as_slice(),
        ),
        (
            "list --count=1 --dna a",
            ROW,
            b"0 (!2)P -> PI{0,0}\n".as_slice(),
        ),
        ("list --dna a --count 0", ROW, b"".as_slice()),
        (
            "list --dna a --count 1",
            b"".as_slice(),
            b"0 finish\n".as_slice(),
        ),
    ] {
        let words = words(rt.alloc(), line)?;
        expect::<Brand>(
            &rt,
            rt.alloc(),
            Blank::new(1),
            &words,
            file,
            Status::Done,
            bytes,
        )?;
    }
    Ok(())
}

#[test]
fn traces_of_small_files(rt: HostRuntime) -> Result<(), Fail> {
    let row = b"0 30 (!2)P -> PI{0,0} | match 3 | 5\n1 5 finish\n".as_slice();
    for (line, file, status, bytes) in [
        (
            "trace --dna a --budget 0",
            ROW,
            Status::OutOfBudget,
            b"".as_slice(),
        ),
        (
            "trace --dna a --budget 1",
            ROW,
            Status::OutOfBudget,
            b"0 30 (!2)P -> PI{0,0} | match 3 | 5\n".as_slice(),
        ),
        ("trace --dna a", ROW, Status::Done, row),
        (
            "trace --prefix p --dna a",
            b"IFPPIICCFPC".as_slice(),
            Status::Done,
            row,
        ),
        (
            "trace --dna a --limit 55",
            GROWING,
            Status::TooLong { attempt: 0 },
            b"0 55 (!8) -> {0,0}{0,0}{0,0}{0,0}{0,0}{0,0}{0,0} | too long\n".as_slice(),
        ),
        (
            "trace --dna a --limit 54",
            GROWING,
            Status::StartTooLong,
            b"".as_slice(),
        ),
    ] {
        let words = words(rt.alloc(), line)?;
        expect::<Brand>(&rt, rt.alloc(), Blank::new(1), &words, file, status, bytes)?;
    }
    Ok(())
}

/// The base at 2 of four is cut, and II is put.
const EDIT: &[u8] = b"version = 1\nlength = 4\n\n[[patch]]\nat = 2\ncut = 1\nput = \"II\"\n";

/// The first base of two is cut, and then P is put before what is left.
const EDITS: &[u8] =
    b"version = 1\nlength = 2\n[[patch]]\nat = 0\ncut = 1\nput = \"\"\n[[patch]]\nat = 0\ncut = 0\nput = \"P\"\n";

/// The first base of four goes to the end.
const MOVE: &[u8] = b"version = 2\nlength = 4\n[[patch]]\nmove = 0\ncount = 1\nto = 3\n";

/// The two bases in the middle of four are put once more before the last of them.
const COPY: &[u8] = b"version = 2\nlength = 4\n[[patch]]\ncopy = 1\ncount = 2\nto = 2\n";

#[test]
fn patches_of_small_files(rt: HostRuntime) -> Result<(), Fail> {
    let nothing = b"".as_slice();
    let one = b"IIPIPICPIICIPCPIICIFPPCCIIC\n".as_slice();
    let outside = Status::Outside { index: 1 };
    let bad = |index| Status::BadPatch { index };
    for (line, file, status, bytes) in [
        ("patch --file a", EDIT, Status::Done, one),
        ("patch --file a --limit 27", EDIT, Status::Done, one),
        (
            "patch --limit=26 --file a",
            EDIT,
            Status::TooLong { attempt: 0 },
            nothing,
        ),
        (
            "patch --file a",
            b"version = 1\nlength = 4\n",
            Status::Done,
            b"\n",
        ),
        (
            "patch --file a",
            b"version = 1\nlength = 4\npatch = [{ at = 4, cut = 0, put = \"\" }]\n",
            Status::Done,
            b"IIPIPIICPIICIPPIICIFPPIIC\n",
        ),
        (
            "patch --file a --limit 1",
            b"version = 1\nlength = 4\npatch = [{ at = 4, cut = 1, put = \"\" }]\n",
            outside,
            nothing,
        ),
        (
            "patch --file a",
            b"version = 2\nlength = 4\npatch = [{ move = 1, count = 2, to = 3 }]\n",
            outside,
            nothing,
        ),
        ("patch --file a", b"length = ", Status::BadToml, nothing),
        (
            "patch --file a",
            b"version = 3\nlength = 4\n",
            bad(0),
            nothing,
        ),
        (
            "patch --file a",
            b"version = 1\nlength = 4\nnote = 1\n",
            bad(0),
            nothing,
        ),
        (
            "patch --file a",
            b"version = 1\nlength = 4\npatch = [{ copy = 1, count = 2, to = 2 }]\n",
            bad(1),
            nothing,
        ),
        (
            "patch --file a",
            b"version = 1\nlength = 4\npatch = [{ at = 9, cut = -1, put = \"\" }]\n",
            bad(1),
            nothing,
        ),
        (
            "patch --file a",
            b"version = 1\nlength = 4\npatch = [{ at = 9, cut = 0, put = \"\" }, { at = 0, cut = 0, put = \"IX\" }]\n",
            bad(2),
            nothing,
        ),
        ("patch --file unknown", EDIT, Status::ReadFault, nothing),
    ] {
        let words = words(rt.alloc(), line)?;
        expect::<Brand>(&rt, rt.alloc(), Blank::new(1), &words, file, status, bytes)?;
    }
    Ok(())
}

#[test]
fn sources_of_small_files(rt: HostRuntime) -> Result<(), Fail> {
    let nothing = b"".as_slice();
    let black = b"-> black".as_slice();
    let code = b"IICCCCICCICCCCFIIC\n".as_slice();
    for (line, file, status, bytes) in [
        ("compile --source a", black, Status::Done, code),
        ("compile --source a --limit 18", black, Status::Done, code),
        (
            "compile --limit=17 --source a",
            black,
            Status::TooLong { attempt: 0 },
            nothing,
        ),
        ("compile --source a", nothing, Status::Done, b"\n"),
        (
            "compile --source a",
            b"-> blak",
            Status::BadName { line: 1, column: 4 },
            nothing,
        ),
        (
            "compile --source a",
            b"(!x)",
            Status::BadSource { line: 1, column: 5 },
            nothing,
        ),
        (
            "compile --source a",
            b"!{9223372036854775807+1} ->",
            Status::BadNumber {
                line: 1,
                column: 26,
            },
            nothing,
        ),
        (
            "compile --source a",
            b") -> ",
            Status::NoCode { line: 1, column: 1 },
            nothing,
        ),
        (
            "compile --source unknown",
            black,
            Status::ReadFault,
            nothing,
        ),
    ] {
        let words = words(rt.alloc(), line)?;
        expect::<Brand>(&rt, rt.alloc(), Blank::new(1), &words, file, status, bytes)?;
    }
    Ok(())
}

#[test]
fn prefixes_carry_patches_out(rt: HostRuntime) -> Result<(), Fail> {
    let nothing = b"".as_slice();
    let bases = b"CFPC".as_slice();
    let prefix = b"IIPIPICPIICIPCPIICIFPPCCIIC\n".as_slice();
    let twice = b"IIPIPIIICCPIICIPCPIICIFPPIICIIPIPPIICIPPIICIFPPICIIC\n".as_slice();
    let moved = b"IIPIPPIICIIPIPCPIICIIPIPCCPIICIICIFPPIFPICPIFPCPIIC\n".as_slice();
    let copied = b"IIPIPCPIICIIPIPCPIICIIPIPCPIICIICIFPPIFPCPIFPCPIFPICPIFPICPIIC\n".as_slice();
    for (line, files, status, bytes) in [
        ("patch --file a", [EDITS, nothing], Status::Done, twice),
        ("patch --file a", [MOVE, nothing], Status::Done, moved),
        ("patch --file a", [COPY, nothing], Status::Done, copied),
        (
            "dna --dna a --prefix p --budget 1",
            [bases, prefix],
            Status::Done,
            b"CFIIC\n",
        ),
        (
            "rna --dna a --prefix p --budget 1",
            [bases, prefix],
            Status::OutOfBudget,
            nothing,
        ),
        (
            "dna --dna a --prefix p --budget 2",
            [b"CF", twice],
            Status::Done,
            b"PF\n",
        ),
        (
            "dna --dna a --prefix p --budget 1",
            [bases, moved],
            Status::Done,
            b"FPCC\n",
        ),
        (
            "dna --dna a --prefix p --budget 1",
            [bases, copied],
            Status::Done,
            b"CFFPPC\n",
        ),
    ] {
        let words = words(rt.alloc(), line)?;
        expect_with::<Brand>(&rt, rt.alloc(), Blank::new(1), &words, files, status, bytes)?;
    }
    Ok(())
}

#[test]
fn summaries_of_loads(rt: HostRuntime) -> Result<(), Fail> {
    for (line, bytes) in [
        (
            "bench --seed 0 --size 2 --rounds 1",
            b"attempts 1\nlength 3\ni 2\nc 0\nf 1\np 0\nrna 0\nmark 995\n".as_slice(),
        ),
        (
            "bench --seed 0 --size 0 --rounds 0",
            b"attempts 0\nlength 0\ni 0\nc 0\nf 0\np 0\nrna 0\nmark 0\n",
        ),
        (
            "bench --seed 2147483647 --size 5000 --rounds 60",
            b"attempts 60\nlength 4790\ni 1149\nc 1222\nf 1234\np 1185\nrna 0\nmark 3971663213\n",
        ),
    ] {
        let words = words(rt.alloc(), line)?;
        expect::<Brand>(
            &rt,
            rt.alloc(),
            Blank::new(1),
            &words,
            b"",
            Status::Done,
            bytes,
        )?;
    }
    Ok(())
}

#[test]
fn limits_are_kept(rt: HostRuntime) -> Result<(), Fail> {
    let whole = b"IIPIPIIICPIICIICIFPPIFPPIFPPIFPPIFPPIFPPIFPPIICCCCCCCCC\n".as_slice();
    for (line, status, bytes) in [
        (
            "dna --dna a --limit 55",
            Status::TooLong { attempt: 0 },
            whole,
        ),
        (
            "dna --dna a --limit 54",
            Status::StartTooLong,
            b"".as_slice(),
        ),
        (
            "rna --dna a --prefix p --limit 73",
            Status::StartTooLong,
            b"".as_slice(),
        ),
    ] {
        let words = words(rt.alloc(), line)?;
        expect::<Brand>(
            &rt,
            rt.alloc(),
            Blank::new(1),
            &words,
            GROWING,
            status,
            bytes,
        )?;
    }
    Ok(())
}

#[test]
fn refusals_write_nothing(rt: HostRuntime) -> Result<(), Fail> {
    let bad = |place| Status::BadBase {
        file: InFile::Dna,
        place,
    };
    let bad_rna = |line| Status::BadRna { line };
    for (line, file, status) in [
        ("rna --dna a", b"IIPIPC\nXCF".as_slice(), bad(7)),
        ("rna --dna a", b"iip".as_slice(), bad(0)),
        ("rna --dna a --prefix unknown", b"iip".as_slice(), bad(0)),
        (
            "rna --dna a --prefix unknown",
            b"IIP".as_slice(),
            Status::ReadFault,
        ),
        ("rna --dna unknown", b"IIP".as_slice(), Status::ReadFault),
        (
            "draw --rna a",
            b"PIPIIIC\nPIPIIICP\n".as_slice(),
            bad_rna(2),
        ),
        ("draw --rna a", b"x".as_slice(), bad_rna(1)),
        (
            "names --rna a",
            b"PIPIIIC\nPIPIIICP\n".as_slice(),
            bad_rna(2),
        ),
        ("list --dna a --count 0", b"IIPIPC\nXCF".as_slice(), bad(7)),
    ] {
        let words = words(rt.alloc(), line)?;
        expect::<Brand>(&rt, rt.alloc(), Blank::new(1), &words, file, status, b"")?;
    }
    Ok(())
}

#[test]
fn other_words_are_usage(rt: HostRuntime) -> Result<(), Fail> {
    for line in [
        "",
        "paint",
        "rna",
        "draw --dna a",
        "rna --dna a --budget x",
        "rna --dna a --budget +1",
        "rna --dna a --budget 1099511627777",
        "rna --dna a --limit 0",
        "rna --dna a --limit 1099511627777",
        "rna --dna a --dna a",
        "rna --dna a b",
        "rna --dna a --profile wide",
        "draw --rna a --profile big",
        "trace --dna a --profile wide",
        "names --dna a",
        "list --dna a",
        "list --dna a --count 1099511627777",
        "list --dna a --count 1 --prefix p",
    ] {
        let words = words(rt.alloc(), line)?;
        expect::<Brand>(
            &rt,
            rt.alloc(),
            Blank::new(1),
            &words,
            b"",
            Status::Usage,
            b"",
        )?;
    }
    Ok(())
}

#[test]
fn statuses_have_their_lines(rt: HostRuntime) -> Result<(), Fail> {
    for (status, number, line) in [
        (Status::Done, 0, b"".as_slice()),
        (Status::Usage, 2, b"fuun: usage\n".as_slice()),
        (Status::OutOfBudget, 3, b"fuun: out of budget\n".as_slice()),
        (
            Status::TooLong { attempt: 70 },
            4,
            b"fuun: too long at attempt 70\n".as_slice(),
        ),
        (
            Status::BadBase {
                file: InFile::Dna,
                place: 6,
            },
            5,
            b"fuun: dna: byte 6 is not a base\n".as_slice(),
        ),
        (
            Status::BadRna { line: 12 },
            6,
            b"fuun: rna: line 12 is not a command\n".as_slice(),
        ),
        (
            Status::BadToml,
            7,
            b"fuun: patch: not a TOML document\n".as_slice(),
        ),
        (
            Status::BadPatch { index: 0 },
            8,
            b"fuun: patch: row 0 is refused\n".as_slice(),
        ),
        (
            Status::Outside { index: 23 },
            9,
            b"fuun: patch: row 23 is outside the length\n".as_slice(),
        ),
        (
            Status::InputTooLong {
                file: InFile::Prefix,
            },
            10,
            b"fuun: prefix: too long\n".as_slice(),
        ),
        (Status::ReadFault, 11, b"fuun: read fault\n".as_slice()),
        (Status::WriteFault, 12, b"fuun: write fault\n".as_slice()),
        (Status::NoMemory, 13, b"fuun: no memory\n".as_slice()),
        (
            Status::StartTooLong,
            14,
            b"fuun: start too long\n".as_slice(),
        ),
        (
            Status::BadText { line: 1 },
            15,
            b"fuun: text: line 1 is not a pair\n".as_slice(),
        ),
        (
            Status::Unreadable { line: 30 },
            16,
            b"fuun: text: line 30 has no DNA\n".as_slice(),
        ),
        (
            Status::Depends { attempt: 4 },
            17,
            b"fuun: attempt 4 depends on the target\n".as_slice(),
        ),
        (
            Status::BadScript { line: 2 },
            18,
            b"fuun: script: line 2 is refused\n".as_slice(),
        ),
        (Status::BadPpm, 19, b"fuun: ppm: refused\n".as_slice()),
        (
            Status::BadSource { line: 1, column: 5 },
            20,
            b"fuun: source: line 1, column 5: out of form\n".as_slice(),
        ),
        (
            Status::BadName { line: 3, column: 4 },
            21,
            b"fuun: source: line 3, column 4: a name that does not serve\n".as_slice(),
        ),
        (
            Status::BadNumber {
                line: 2,
                column: 26,
            },
            22,
            b"fuun: source: line 2, column 26: 2^63 or more\n".as_slice(),
        ),
        (
            Status::NoCode {
                line: 10,
                column: 1,
            },
            23,
            b"fuun: source: line 10, column 1: no DNA has this pattern\n".as_slice(),
        ),
    ] {
        let mut sink = MemSink::with_room(rt.alloc(), 64)?;
        put_status(&status, &mut sink)?;
        assert_eq!(rt; status.number(), number);
        assert_eq!(rt; sink.bytes(), line);
    }
    Ok(())
}

/// Parts that each double the bases behind all parts, a cut of what they made, and eight C: 2,310 bases.
fn doubling_dna(alloc: Global) -> Result<Vec<u8>, Fail> {
    let mut bases = Vec::new(alloc);
    let mut doubled = 1 << 36;
    bases.extend_from_slice(read_dna(alloc, b"IP")?.as_slice())?;
    asnat_into(doubled, &mut bases)?;
    bases.extend_from_slice(read_dna(alloc, b"IICIIC")?.as_slice())?;
    for _ in 0..33 {
        doubled /= 2;
        let mut part = Vec::new(alloc);
        part.extend_from_slice(read_dna(alloc, b"IIPIP")?.as_slice())?;
        asnat_into(bases.len() as u64, &mut part)?;
        part.extend_from_slice(read_dna(alloc, b"IICIIPIP")?.as_slice())?;
        asnat_into(doubled, &mut part)?;
        part.extend_from_slice(read_dna(alloc, b"IICIICIFPPIFPCPIFPCPIIC")?.as_slice())?;
        part.extend_from_slice(bases.as_slice())?;
        bases = part;
    }
    let mut file = Vec::new(alloc);
    for base in bases {
        file.push(base.letter())?;
    }
    file.extend_from_slice(b"CCCCCCCC")?;
    Ok(file)
}

#[test]
fn a_dna_longer_than_any_memory_is_run(rt: HostRuntime) -> Result<(), Fail> {
    let file = doubling_dna(rt.alloc())?;
    assert_eq!(rt; file.len(), 2310);
    let words = words(rt.alloc(), "dna --dna a --limit 1099511627776")?;
    expect::<Brand>(
        &rt,
        rt.alloc(),
        Blank::new(1),
        &words,
        &file,
        Status::Done,
        b"\n",
    )
}
