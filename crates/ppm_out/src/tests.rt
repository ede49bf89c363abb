use crate::write_ppm;
use canvas::{Bitmap, Pixel, Spot};
use fuun_io::MemSink;
use std::test::Fail;

#[test]
fn a_new_picture_is_its_header_and_zeros(rt: HostRuntime) -> Result<(), Fail> {
    let bitmap = Bitmap::<600>::new(rt.alloc())?;
    let mut sink = MemSink::with_room(rt.alloc(), 1_080_015)?;
    write_ppm(&bitmap, &mut sink)?;
    let bytes = sink.bytes();
    assert_eq!(rt; bytes.len(), 1_080_015);
    assert_eq!(rt; &bytes[..15], b"P6\n600 600\n255\n".as_slice());
    assert!(rt; bytes[15..].iter().all(|byte| *byte == 0));
    Ok(())
}

#[test]
fn rows_from_the_north_each_from_the_west(rt: HostRuntime) -> Result<(), Fail> {
    let mut bitmap = Bitmap::<3>::new(rt.alloc())?;
    bitmap.set(Spot { x: 2, y: 0 }, Pixel::of(1, 2, 3, 4));
    bitmap.set(Spot { x: 0, y: 2 }, Pixel::of(5, 6, 7, 255));
    let mut sink = MemSink::with_room(rt.alloc(), 64)?;
    write_ppm(&bitmap, &mut sink)?;
    let wanted =
        b"P6\n3 3\n255\n\0\0\0\0\0\0\x01\x02\x03\0\0\0\0\0\0\0\0\0\x05\x06\x07\0\0\0\0\0\0";
    assert_eq!(rt; sink.bytes(), wanted.as_slice());
    Ok(())
}

#[test]
fn the_least_picture(rt: HostRuntime) -> Result<(), Fail> {
    let mut bitmap = Bitmap::<1>::new(rt.alloc())?;
    bitmap.set(Spot { x: 0, y: 0 }, Pixel::of(255, 0, 0, 255));
    let mut sink = MemSink::with_room(rt.alloc(), 64)?;
    sink.set_most(4);
    write_ppm(&bitmap, &mut sink)?;
    assert_eq!(rt; sink.bytes(), b"P6\n1 1\n255\n\xff\0\0".as_slice());
    Ok(())
}
