ghost use Rattle.std.specs.Prelude.{◌<◌, ◌≤◌};

use crate::{Work, fill};
use canvas::{Bitmap, Pixel, Spot};
use fuun_base::NoMemory;
use std::alloc::Global;
use std::test::Fail;

// The pixel of a letter: red, blue or transparent.
fn pixel_by(letter: u8) -> Pixel {
    match letter {
        b'r' => Pixel::of(255, 0, 0, 255),
        b'b' => Pixel::of(0, 0, 255, 255),
        _ => Pixel::of(0, 0, 0, 0),
    }
}

fn drawn<const SIDE: usize>(alloc: Global, letters: &[u8]) -> Result<Bitmap<SIDE>, NoMemory>
    requires { (1 ≤ SIDE) × (SIDE ≤ 1024) }
{
    let mut bitmap = Bitmap::new(alloc)?;
    for (place, letter) in letters.iter().enumerate() {
        let x = place % SIDE;
        let y = place / SIDE;
        if y < SIDE {
            bitmap.set(
                Spot {
                    x: x as u32,
                    y: y as u32,
                },
                pixel_by(*letter),
            );
        }
    }
    Ok(bitmap)
}

fn shows<const SIDE: usize>(bitmap: &Bitmap<SIDE>, letters: &[u8]) -> bool {
    let pixels = bitmap.pixels();
    pixels.len() == letters.len()
        && pixels
            .iter()
            .zip(letters)
            .all(|(pixel, letter)| *pixel == pixel_by(*letter))
}

// Whether two blue fills of a bitmap from one spot, the one after the other, both leave the other bitmap.
fn fills<const SIDE: usize>(
    alloc: Global,
    spot: Spot,
    before: &[u8],
    after: &[u8],
) -> Result<bool, NoMemory>
    requires side { (1 ≤ SIDE) × (SIDE ≤ 1024) }
    requires inside { (spot.x < SIDE) × (spot.y < SIDE) }
{
    let mut bitmap = drawn::<SIDE>(alloc, before)?;
    let mut work = Work::new(alloc)?;
    fill(&mut bitmap, &mut work, spot, pixel_by(b'b'));
    let once = shows(&bitmap, after);
    fill(&mut bitmap, &mut work, spot, pixel_by(b'b'));
    Ok(once && shows(&bitmap, after))
}

#[test]
fn small_sides(rt: HostRuntime) -> Result<(), Fail> {
    assert!(rt; fills::<1>(rt.alloc(), Spot { x: 0, y: 0 }, b".", b"b")?);
    // No step goes round an edge, or over a corner.
    assert!(rt; fills::<3>(rt.alloc(), Spot { x: 0, y: 0 }, b".r..r..r.", b"br.br.br.")?);
    assert!(rt; fills::<3>(rt.alloc(), Spot { x: 1, y: 0 }, b"...rrr...", b"bbbrrr...")?);
    assert!(rt; fills::<3>(rt.alloc(), Spot { x: 1, y: 1 }, b".r.r.r.r.", b".r.rbr.r.")?);
    assert!(rt; fills::<3>(rt.alloc(), Spot { x: 1, y: 1 }, b"rrrr.rrrr", b"rrrrbrrrr")?);
    Ok(())
}

#[test]
fn a_comb_and_a_spiral(rt: HostRuntime) -> Result<(), Fail> {
    let comb = b".r.r.r.r.r.r.r.r.r.r.r.r.r.r.r.r.r.r.r.r.r.r.r.r.r.r.r.r........";
    let filled = b"brbrbrbrbrbrbrbrbrbrbrbrbrbrbrbrbrbrbrbrbrbrbrbrbrbrbrbrbbbbbbbb";
    assert!(rt; fills::<8>(rt.alloc(), Spot { x: 4, y: 2 }, comb, filled)?);
    let spiral = b"........rrrrrrr.......r..rrrr.r..r..r.r..r....r..rrrrrr.........";
    let filled = b"bbbbbbbbrrrrrrrbbbbbbbrbbrrrrbrbbrbbrbrbbrbbbbrbbrrrrrrbbbbbbbbb";
    assert!(rt; fills::<8>(rt.alloc(), Spot { x: 3, y: 4 }, spiral, filled)?);
    Ok(())
}
