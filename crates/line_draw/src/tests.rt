ghost use Rattle.std.specs.Prelude.{◌<◌, ◌≤◌};

use crate::line;
use canvas::{Bitmap, Pixel, Spot};
use fuun_base::NoMemory;
use std::alloc::Global;
use std::test::Fail;

// Whether the line sets exactly the pixels with a '#'.
fn draws<const SIDE: usize>(
    alloc: Global,
    start: Spot,
    stop: Spot,
    picture: &[u8],
) -> Result<bool, NoMemory>
    requires side { (1 ≤ SIDE) × (SIDE ≤ 1024) }
    requires start { (start.x < SIDE) × (start.y < SIDE) }
    requires stop { (stop.x < SIDE) × (stop.y < SIDE) }
{
    let red = Pixel::of(255, 0, 0, 255);
    let mut bitmap = Bitmap::<SIDE>::new(alloc)?;
    line(&mut bitmap, start, stop, red);
    let pixels = bitmap.pixels();
    Ok(
        pixels.len() == picture.len()
            && pixels
                .iter()
                .zip(picture)
                .all(|(pixel, letter)| (*pixel == red) == (*letter == b'#')),
    )
}

#[test]
fn small_sides(rt: HostRuntime) -> Result<(), Fail> {
    let corner = Spot { x: 0, y: 0 };
    assert!(rt; draws::<1>(rt.alloc(), corner, corner, b"#")?);
    assert!(rt; draws::<3>(rt.alloc(), corner, corner, b"#........")?);
    let far = Spot { x: 2, y: 2 };
    assert!(rt; draws::<3>(rt.alloc(), corner, far, b"#...#...#")?);
    assert!(rt; draws::<3>(rt.alloc(), far, corner, b"#...#...#")?);
    assert!(rt;
        draws::<3>(
            rt.alloc(),
            Spot { x: 0, y: 2 },
            Spot { x: 0, y: 0 },
            b"#..#..#.."
        )?
    );
    Ok(())
}

#[test]
fn lines_of_a_side_of_eight(rt: HostRuntime) -> Result<(), Fail> {
    let flat = b"##........##....................................................";
    assert!(rt; draws::<8>(rt.alloc(), Spot { x: 0, y: 0 }, Spot { x: 3, y: 1 }, flat)?);
    assert!(rt; draws::<8>(rt.alloc(), Spot { x: 3, y: 1 }, Spot { x: 0, y: 0 }, flat)?);
    let falling = b".##.....#.......................................................";
    assert!(rt;
        draws::<8>(
            rt.alloc(),
            Spot { x: 0, y: 1 },
            Spot { x: 2, y: 0 },
            falling
        )?
    );
    Ok(())
}
