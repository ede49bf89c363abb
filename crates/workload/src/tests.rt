use super::*;
use fuun_base::{Base, Tally, read_dna};
use fuun_io::MemSink;
use patch_text::PatchRow;
use std::alloc::Global;
use std::process::Abort;
use std::test::Fail;

#[test]
fn loads_as_worked(rt: HostRuntime) -> Result<(), Fail> {
    let alloc = rt.alloc();
    for (seed, target, rows) in [
        (0, b"IC".as_slice(), [(1, 1, b"IF".as_slice())].as_slice()),
        (0, b"", &[]),
    ] {
        expect(&rt, alloc, seed, target, rows)?;
    }
    Ok(())
}

fn expect(
    rt: &impl Abort,
    alloc: Global,
    seed: u64,
    target: &[u8],
    rows: &[(u64, u64, &[u8])],
) -> Result<(), Fail> {
    if seed > 2_147_483_647 || target.len() > 100 || rows.len() > 100 {
        return Err(Fail::from("a small load"));
    }
    let load = make(alloc, seed, target.len() as u64, rows.len() as u64)?;
    let target = read_dna(alloc, target)?;
    assert_eq!(rt; load.target.as_slice(), target.as_slice());
    assert_eq!(rt; load.patches.length(), target.len() as u64);
    assert_eq!(rt; load.patches.rows().len(), rows.len());
    for (row, wanted) in load.patches.rows().iter().zip(rows) {
        let PatchRow::Edit { place, cut, put } = row else {
            return Err(Fail::from("an edit"));
        };
        let wanted_put = read_dna(alloc, wanted.2)?;
        assert_eq!(rt; (*place, *cut), (wanted.0, wanted.1));
        assert_eq!(rt; put.as_slice(), wanted_put.as_slice());
    }
    Ok(())
}

#[test]
fn marks_as_worked(rt: HostRuntime) -> Result<(), Fail> {
    assert_eq!(rt; mark_behind(0, &[]), 0);
    assert_eq!(rt; mark_behind(0, &[Base::I, Base::I, Base::F]), 995);
    assert_eq!(rt;
        mark_behind(mark_behind(0, &[Base::I, Base::I]), &[Base::F]),
        995
    );
    assert_eq!(rt; mark_behind(u32::MAX, &[Base::P]), 4_294_967_269);
    Ok(())
}

#[test]
fn summaries_have_eight_lines(rt: HostRuntime) -> Result<(), Fail> {
    let most = u64::MAX;
    for (summary, text) in [
        (
            Summary {
                attempts: 1,
                tally: Tally {
                    i: 2,
                    c: 0,
                    f: 1,
                    p: 0,
                },
                rna: 0,
                mark: 995,
            },
            b"attempts 1\nlength 3\ni 2\nc 0\nf 1\np 0\nrna 0\nmark 995\n".as_slice(),
        ),
        (
            Summary {
                attempts: 0,
                tally: Tally {
                    i: most,
                    c: most,
                    f: 0,
                    p: 3,
                },
                rna: 12,
                mark: 0,
            },
            b"attempts 0\nlength 36893488147419103233\ni 18446744073709551615\nc 18446744073709551615\nf 0\np 3\nrna 12\nmark 0\n",
        ),
    ] {
        let mut sink = MemSink::with_room(rt.alloc(), 200)?;
        put_summary(&summary, &mut sink)?;
        assert_eq!(rt; sink.bytes(), text);
    }
    Ok(())
}
