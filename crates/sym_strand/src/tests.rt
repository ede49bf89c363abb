ghost use Rattle.std.specs.Prelude.{◌≡◌};

use crate::{Cell, Seg, SymDna};
use fuun_base::{Base, read_dna};
use std::alloc::Global;
use std::process::Abort;
use std::test::Fail;

fn text_of(alloc: Global, segs: &[Seg]) -> Result<String, Fail> {
    let mut text = String::new(alloc);
    for seg in segs {
        match seg {
            Seg::Known(bases) => {
                for base in bases.as_slice() {
                    text.push(char::from(base.letter()))?;
                }
            }
            Seg::Target { lo, hi } => text.push_str(format!(in alloc; "[{lo} {hi}]")?.as_str())?,
        }
    }
    Ok(text)
}

fn expect(rt: &impl Abort, alloc: Global, dna: &SymDna, text: &str) -> Result<(), Fail> {
    assert_eq!(rt; text_of(alloc, dna.segs())?.as_str(), text);
    Ok(())
}

#[test]
fn parts_are_cut_and_joined(rt: HostRuntime) -> Result<(), Fail> {
    let alloc = rt.alloc();
    let prefix = read_dna(alloc, b"ICFP")?;
    if prefix.len() != 4 {
        return Ok(());
    }
    let dna = SymDna::start(alloc, prefix.as_slice(), 1 << 40)?;
    expect(&rt, alloc, &dna, "ICFP[0 1099511627776]")?;
    assert_eq!(&rt; dna.len(), (1 << 40) + 4);
    assert_eq!(&rt; dna.cell(3), Some(Cell::Known(Base::P)));
    assert_eq!(&rt; dna.cell(10), Some(Cell::Target(6)));
    assert_eq!(&rt; dna.cell((1 << 40) + 4), None);
    assert!(&rt; !dna.all_known());
    assert_eq!(&rt; dna.known_front()?.as_slice(), prefix.as_slice());
    for (lo, hi, more, text) in [
        (0, 4, 0, "ICFPICIC"),
        (2, 6, 2, "FP[0 2]FPIC"),
        (4, 6, 6, "[0 4]IC"),
        (4, 6, 7, "[0 2][3 5]IC"),
        (9, 9, 0, "ICIC"),
        (3, 3, 4, "[0 2]IC"),
    ] {
        if hi > dna.len() || more + 2 > dna.len() || lo > hi {
            return Ok(());
        }
        let mut part = dna.sub(lo, hi)?;
        let other = dna.sub(more, more + 2)?;
        if part.len() > 1000 || other.len() > 1000 {
            return Ok(());
        }
        part.append(&other)?;
        if part.len() > 2000 {
            return Ok(());
        }
        part.push_known(&[Base::I, Base::C])?;
        expect(&rt, alloc, &part, text)?;
    }
    let segs = dna.into_segs();
    assert_eq!(&rt; segs.len(), 2);
    Ok(())
}
