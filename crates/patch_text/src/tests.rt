use super::*;
use crate::openings::count_openings;
use fuun_base::{Base, read_dna};
use std::alloc::Global;
use std::test::Fail;

fn read(alloc: Global, text: &str) -> Result<PatchFile, PatchError> {
    if text.len() > 1000 {
        return Err(PatchError::NoMemory);
    }
    read_patches(alloc, text.as_bytes())
}

#[test]
fn edits_are_read(rt: HostRuntime) -> Result<(), Fail> {
    let alloc = rt.alloc();
    let text = "version = 1\nlength = 4\n\n[[patch]]\nat = 2\ncut = 1\nput = \"II\"\n";
    let inline = "version = 2\nlength = 4\npatch = [{ at = 2, cut = 1, put = \"II\" }]\n";
    for document in [text, inline] {
        let file = read(alloc, document)?;
        assert_eq!(rt; file.length(), 4);
        let [PatchRow::Edit { place, cut, put }] = file.rows() else {
            return Err(Fail::from("one edit"));
        };
        assert_eq!(rt; (*place, *cut), (2, 1));
        assert_eq!(rt; put.as_slice(), [Base::I, Base::I].as_slice());
    }
    Ok(())
}

#[test]
fn copies_and_moves_are_read(rt: HostRuntime) -> Result<(), Fail> {
    let text =
        "version = 2\nlength = 4\n[[patch]]\nmove = 0\ncount = 1\nto = 3\n[[patch]]\ncopy = 1\ncount = 2\nto = 2\n";
    let file = read(rt.alloc(), text)?;
    let [
        PatchRow::Move {
            source: 0,
            count: 1,
            target: 3,
        },
        PatchRow::Copy {
            source: 1,
            count: 2,
            target: 2,
        },
    ] = file.rows()
    else {
        return Err(Fail::from("a move and a copy"));
    };
    Ok(())
}

#[test]
fn refusals_name_their_row(rt: HostRuntime) -> Result<(), Fail> {
    let good = "[[patch]]\nat = 0\ncut = 0\nput = \"\"\n";
    for (heading, rows, index) in [
        ("version = 3\nlength = 4\n", "", 0),
        ("version = 1\nlength = 4\nnote = 1\n", "", 0),
        ("version = 1\n", "", 0),
        ("version = 1\nlength = 1099511627777\n", "", 0),
        ("version = 1\nlength = 4\npatch = 1\n", "", 0),
        ("version = 1\nlength = 4\npatch = [1]\n", "", 1),
        (
            "version = 1\nlength = 4\n",
            "[[patch]]\nat = 0\ncut = -1\nput = \"\"\n",
            1,
        ),
        (
            "version = 1\nlength = 4\n",
            "[[patch]]\ncopy = 1\ncount = 2\nto = 2\n",
            1,
        ),
        (
            "version = 2\nlength = 4\n",
            "[[patch]]\ncopy = 1\ncount = 2\n",
            1,
        ),
        (
            "version = 2\nlength = 4\n",
            "[[patch]]\ncopy = 1\ncount = 2\nto = 2\nat = 2\n",
            1,
        ),
    ] {
        let text = format!(in rt.alloc(); "{heading}{rows}")?;
        let answer = read(rt.alloc(), text.as_str()).map(|file| file.length());
        assert_eq!(rt; answer, Err(PatchError::BadPatch { index }), "at {text:?}");
    }
    let text = format!(in rt.alloc();
        "version = 1\nlength = 4\n{good}[[patch]]\nat = 0\ncut = 0\nput = \"IX\"\n"
    )?;
    let answer = read(rt.alloc(), text.as_str()).map(|file| file.length());
    assert_eq!(rt; answer, Err(PatchError::BadPatch { index: 2 }));
    let answer = read(rt.alloc(), "length = ").map(|file| file.length());
    assert_eq!(rt; answer, Err(PatchError::BadToml));
    Ok(())
}

#[test]
fn rows_are_added_within_bounds(rt: HostRuntime) -> Result<(), Fail> {
    let alloc = rt.alloc();
    let most = 1 << 40;
    let mut file = PatchFile::new(alloc, most);
    let put = read_dna(alloc, b"ICFP")?;
    assert_eq!(rt;
        file.add(most + 1, 0, put.as_slice()),
        Err(AddError::TooLarge)
    );
    assert_eq!(rt; file.add(0, most + 1, &[]), Err(AddError::TooLarge));
    assert_eq!(rt; file.add_copy(0, most + 1, 0), Err(AddError::TooLarge));
    assert_eq!(rt; file.add_move(0, 0, most + 1), Err(AddError::TooLarge));
    assert_eq!(rt; file.rows().len(), 0);
    assert_eq!(rt; file.add(most, most, put.as_slice()), Ok(()));
    assert_eq!(rt; file.add_copy(most, most, most), Ok(()));
    assert_eq!(rt; file.add_move(most, most, most), Ok(()));
    assert_eq!(rt; file.rows().len(), 3);
    Ok(())
}

#[test]
fn openings_stand_outside_comments_and_strings(rt: HostRuntime) -> Result<(), Fail> {
    for (text, count) in [
        ("[[patch]]\na.b = {}\n", 4),
        ("# [.{ '\n[a]", 1),
        ("'[\\' [", 1),
        ("\"['\\\"[\\\\\" [", 1),
        ("'' [", 1),
        ("\"\".a", 1),
        ("'''[\n'[''[\\''' [", 1),
        ("\"\"\"[\n\"[\"\"[\\\"\"\"[\"\"\" [", 1),
        ("\"\"\"\"\"\"[", 1),
        ("\"\"\"[\"\"\"\"[", 1),
        ("\"\"\"[\"\"\"\"\"[", 1),
        ("a = \"[\n[b]", 1),
    ] {
        assert_eq!(rt; count_openings(text.as_bytes()), count, "at {text:?}");
    }
    Ok(())
}

#[test]
fn a_comment_of_dots_is_taken(rt: HostRuntime) -> Result<(), Fail> {
    let alloc = rt.alloc();
    let heading = b"version = 1\nlength = 0\n#".as_slice();
    let mut text = Vec::from_slice(alloc, heading)?;
    text.resize(heading.len() + (5 << 20) + 1, b'.')?;
    let file = read_patches(alloc, text.as_slice())?;
    assert_eq!(rt; file.rows().len(), 0);
    text.clear();
    text.resize((5 << 20) + 1, b'.')?;
    let answer = read_patches(alloc, text.as_slice()).map(|file| file.length());
    assert_eq!(rt; answer, Err(PatchError::NoMemory));
    Ok(())
}
