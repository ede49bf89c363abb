ghost use Rattle.std.specs.Prelude.{◌≤◌, ◌^◌};

use crate::{AsmError, assemble};
use fuun_base::BaseList;
use std::alloc::Global;
use std::test::Fail;

// The letters of an assembled text.
fn letters(alloc: Global, bases: &BaseList) -> Result<Vec<u8>, Fail> {
    let mut text = Vec::new(alloc);
    for base in bases.as_slice() {
        text.push(base.letter())?;
    }
    Ok(text)
}

fn assembled(alloc: Global, text: &str) -> Result<BaseList, AsmError> {
    if text.len() > 1000 {
        return Err(AsmError::NoMemory);
    }
    assemble(alloc, text.as_bytes())
}

#[test]
fn lines_are_written_as_dna(rt: HostRuntime) -> Result<(), Fail> {
    let alloc = rt.alloc();
    for (text, dna) in [
        ("(!2)P -> PI{0,0}\n", "IIPIPICPIICICIICICCIFPPIIC"),
        ("(!2)P -> PI{0,0}", "IIPIPICPIICICIICICCIFPPIIC"),
        (" -> ", "IICIIC"),
        (" -> \n -> \n", "IICIICIICIIC"),
        ("", ""),
        ("<CF> -> \n", "IFFFPIICIIC"),
        ("<>(I) -> |2|{3,1}", "IFFIIPCIICIICIIPICPIFCPCCPIIC"),
        ("<I><P>!10 -> CF", "IFFCIFFICIPICICPIICFPIIC"),
        (
            "!9223372036854775807 -> \n",
            "IPCCCCCCCCCCCCCCCCCCCCCCCCCCCCCCCCCCCCCCCCCCCCCCCCCCCCCCCCCCCCCCCPIICIIC",
        ),
    ] {
        let found = letters(alloc, &assembled(alloc, text)?)?;
        assert_eq!(rt; found.as_slice(), dna.as_bytes(), "at {text:?}");
    }
    Ok(())
}

#[test]
fn the_first_line_refused_is_told(rt: HostRuntime) -> Result<(), Fail> {
    let alloc = rt.alloc();
    for (text, error) in [
        ("<CF>I -> ", AsmError::Unreadable { line: 1 }),
        (") -> ", AsmError::Unreadable { line: 1 }),
        ("( -> ", AsmError::Unreadable { line: 1 }),
        (")( -> \n", AsmError::Unreadable { line: 1 }),
        ("!01 -> I", AsmError::BadText { line: 1 }),
        ("\n", AsmError::BadText { line: 1 }),
        (" -> \n\n -> \n", AsmError::BadText { line: 2 }),
        ("I -> I\r\n", AsmError::BadText { line: 1 }),
        ("I ->", AsmError::BadText { line: 1 }),
        ("I ->  ", AsmError::BadText { line: 1 }),
        ("i -> ", AsmError::BadText { line: 1 }),
        ("!big -> ", AsmError::BadText { line: 1 }),
        (" -> {0,big}", AsmError::BadText { line: 1 }),
        ("!9223372036854775808 -> ", AsmError::BadText { line: 1 }),
        (" -> {0}", AsmError::BadText { line: 1 }),
        (" -> |00|", AsmError::BadText { line: 1 }),
        ("<CF -> ", AsmError::BadText { line: 1 }),
        (") -> i\n", AsmError::BadText { line: 1 }),
        (" -> \n<CF>I -> \n!01 -> ", AsmError::Unreadable { line: 2 }),
        (" -> \n!01 -> \n<CF>I -> ", AsmError::BadText { line: 2 }),
    ] {
        assert_eq!(rt; assembled(alloc, text).err(), Some(error), "at {text:?}");
    }
    Ok(())
}
