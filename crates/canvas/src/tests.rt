use crate::{Bitmap, Bucket, Pixel, Spot};
use rna_code::Ink;
use std::test::Fail;

// The current pixel of a bucket with so many of each ink.
fn mixed(inks: &[(usize, Ink)]) -> Option<Pixel> {
    let mut bucket = Bucket::new();
    let mut count: u64 = 0;
    'kinds: for (times, ink) in inks.iter() {
        'times: for _ in 0..*times {
            if count >= 1000 {
                return None;
            }
            bucket.add(*ink);
            count += 1;
        }
    }
    Some(bucket.pixel())
}

#[test]
fn five_buckets(rt: HostRuntime) -> Result<(), Fail> {
    assert_eq!(rt; mixed(&[]), Pixel::new(0, 0, 0, 255));
    assert_eq!(rt;
        mixed(&[(1, Ink::Transparent), (2, Ink::Opaque)]),
        Pixel::new(0, 0, 0, 170)
    );
    let three = [(1, Ink::Black), (1, Ink::Yellow), (1, Ink::Cyan)];
    assert_eq!(rt; mixed(&three), Pixel::new(85, 170, 85, 255));
    let three = [(1, Ink::Yellow), (1, Ink::Transparent), (1, Ink::Opaque)];
    assert_eq!(rt; mixed(&three), Pixel::new(127, 127, 0, 127));
    let many = [
        (18, Ink::Black),
        (7, Ink::Red),
        (39, Ink::Magenta),
        (10, Ink::White),
        (3, Ink::Opaque),
        (1, Ink::Transparent),
    ];
    assert_eq!(rt; mixed(&many), Pixel::new(143, 25, 125, 191));
    Ok(())
}

#[test]
fn an_emptied_bucket(rt: HostRuntime) -> Result<(), Fail> {
    let mut bucket = Bucket::new();
    bucket.add(Ink::Green);
    bucket.add(Ink::Transparent);
    bucket.empty();
    assert_eq!(rt; bucket.pixel(), Pixel::of(0, 0, 0, 255));
    Ok(())
}

#[test]
fn pixels(rt: HostRuntime) -> Result<(), Fail> {
    assert_eq!(rt; Pixel::new(4, 0, 0, 3), None);
    assert_eq!(rt; Pixel::new(0, 4, 0, 3), None);
    assert_eq!(rt; Pixel::new(0, 0, 4, 3), None);
    let pixel = Pixel::new(1, 2, 3, 3).ok_or("no pixel")?;
    assert_eq!(rt; (pixel.r(), pixel.g(), pixel.b(), pixel.a()), (1, 2, 3, 3));
    Ok(())
}

#[test]
fn bitmaps_of_three_sides(rt: HostRuntime) -> Result<(), Fail> {
    let red = Pixel::of(255, 0, 0, 255);
    let clear = Pixel::of(0, 0, 0, 0);

    let mut least = Bitmap::<1>::new(rt.alloc())?;
    assert_eq!(rt; least.get(Spot { x: 0, y: 0 }), clear);
    least.set(Spot { x: 0, y: 0 }, red);
    assert_eq!(rt; least.pixels(), [red].as_slice());

    let mut small = Bitmap::<3>::new(rt.alloc())?;
    small.set(Spot { x: 2, y: 1 }, red);
    assert_eq!(rt; small.row(1), [clear, clear, red].as_slice());
    assert_eq!(rt; small.row(2), [clear, clear, clear].as_slice());
    assert_eq!(rt; small.get(Spot { x: 1, y: 2 }), clear);

    let mut board = Bitmap::<8>::new(rt.alloc())?;
    board.fill_row(7, 3, 5, red);
    assert_eq!(rt;
        board.row(7),
        [clear, clear, clear, red, red, clear, clear, clear].as_slice()
    );
    board.clear();
    assert!(rt; board.pixels().iter().all(|pixel| *pixel == clear));
    Ok(())
}
