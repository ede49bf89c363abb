use super::*;
use fuun_base::{Base, BaseList, read_dna};
use patch_text::{PatchError, PatchFile, read_patches};
use std::alloc::Global;
use std::test::Fail;

fn file_of(alloc: Global, text: &str) -> Result<PatchFile, PatchError> {
    if text.len() > 1000 {
        return Err(PatchError::NoMemory);
    }
    read_patches(alloc, text.as_bytes())
}

fn letters(alloc: Global, bases: &BaseList) -> Result<Vec<u8>, Fail> {
    let mut text = Vec::new(alloc);
    for base in bases.as_slice() {
        text.push(base.letter())?;
    }
    Ok(text)
}

const EDIT: &str = "version = 1\nlength = 4\n[[patch]]\nat = 2\ncut = 1\nput = \"II\"\n";

#[test]
fn prefixes_are_these(rt: HostRuntime) -> Result<(), Fail> {
    let alloc = rt.alloc();
    for (text, prefix) in [
        (EDIT, "IIPIPICPIICIPCPIICIFPPCCIIC"),
        (
            "version = 1\nlength = 2\n[[patch]]\nat = 0\ncut = 1\nput = \"\"\n[[patch]]\nat = 0\ncut = 0\nput = \"P\"\n",
            "IIPIPIIICCPIICIPCPIICIFPPIICIIPIPPIICIPPIICIFPPICIIC",
        ),
        ("version = 1\nlength = 4\n", ""),
        (
            "version = 2\nlength = 4\n[[patch]]\nmove = 0\ncount = 1\nto = 3\n",
            "IIPIPPIICIIPIPCPIICIIPIPCCPIICIICIFPPIFPICPIFPCPIIC",
        ),
        (
            "version = 2\nlength = 4\n[[patch]]\ncopy = 1\ncount = 2\nto = 2\n",
            "IIPIPCPIICIIPIPCPIICIIPIPCPIICIICIFPPIFPCPIFPCPIFPICPIFPICPIIC",
        ),
    ] {
        let file = file_of(alloc, text)?;
        let found = letters(alloc, &compile(alloc, &file, 1 << 40)?)?;
        assert_eq!(rt; found.as_slice(), prefix.as_bytes(), "at {text:?}");
    }
    Ok(())
}

#[test]
fn rows_and_prefixes_may_be_too_long(rt: HostRuntime) -> Result<(), Fail> {
    let alloc = rt.alloc();
    let heading = "version = 2\nlength = 4\n[[patch]]\n";
    for (row, answer) in [
        (
            "at = 4\ncut = 1\nput = \"\"\n",
            Some(CompileError::Outside { index: 1 }),
        ),
        ("at = 4\ncut = 0\nput = \"\"\n", None),
        (
            "move = 1\ncount = 2\nto = 3\n",
            Some(CompileError::Outside { index: 1 }),
        ),
        ("move = 1\ncount = 2\nto = 2\n", None),
        (
            "at = 0\ncut = 0\nput = \"\"\n[[patch]]\nat = 5\ncut = 0\nput = \"\"\n",
            Some(CompileError::Outside { index: 2 }),
        ),
    ] {
        let text = format!(in alloc; "{heading}{row}")?;
        let file = file_of(alloc, text.as_str())?;
        assert_eq!(rt; compile(alloc, &file, 1 << 26).err(), answer, "at {text:?}");
    }
    let file = file_of(alloc, EDIT)?;
    assert_eq!(rt;
        compile(alloc, &file, 26).err(),
        Some(CompileError::TooLong)
    );
    assert_eq!(rt; compile(alloc, &file, 27).err(), None);
    let mut outside = PatchFile::new(alloc, 0);
    let put = read_dna(alloc, b"PPPP")?;
    outside.add(0, 0, put.as_slice())?;
    outside.add(5, 0, &[])?;
    outside.add(9, 0, &[Base::I])?;
    assert_eq!(rt;
        compile(alloc, &outside, 0).err(),
        Some(CompileError::Outside { index: 2 })
    );
    Ok(())
}
