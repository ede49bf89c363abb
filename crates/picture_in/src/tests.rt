use crate::{Picture, PpmError, read_ppm};
use canvas::Spot;
use std::alloc::Global;
use std::test::Fail;

// A file with this header and so many bytes behind it, the first of which are 1 to 9 and the others 0.
fn file(alloc: Global, header: &[u8], count: usize) -> Result<Vec<u8>, Fail> {
    if count > 2_000_000 || header.len() > 100 {
        return Err("too many bytes".into());
    }
    let mut bytes = Vec::from_slice(alloc, header)?;
    bytes.extend_from_slice(&[1, 2, 3, 4, 5, 6, 7, 8, 9])?;
    bytes.resize(header.len() + count, 0)?;
    Ok(bytes)
}

fn read(alloc: Global, header: &[u8], count: usize) -> Result<Result<Picture, PpmError>, Fail> {
    let bytes = file(alloc, header, count)?;
    Ok(read_ppm(alloc, bytes.as_slice()))
}

#[test]
fn headers(rt: HostRuntime) -> Result<(), Fail> {
    let alloc = rt.alloc();
    let table: [(&[u8], usize, bool); 16] = [
        (b"P6\n600 600\n255\n", 1_080_000, true),
        (b"P6\n600 600\n255\n", 1_080_001, true),
        (b"P6\n600 600\n255\n", 1_079_999, false),
        (b"P6\n# made by hand\n600 600\n255\n", 1_080_000, true),
        (
            b"P6#600\n#\n 600#\n\t00000000000000000600\x0b0255\x0c",
            1_080_000,
            true,
        ),
        (b"P6 600 600 255\r", 1_080_000, true),
        (b"P6 600 600 255#\n", 1_080_000, false),
        (b"P6 600 600 255#", 1_080_000, false),
        (b"P6 600 600 2550 ", 1_080_000, false),
        (b"P6 600 600 4294967551 ", 1_080_000, false),
        (b"P6 600 601 255 ", 1_080_000, false),
        (b"P6 600600 255 ", 1_080_000, false),
        (b"P6600 600 255 ", 1_080_000, false),
        (b"P5 600 600 255 ", 1_080_000, false),
        (b"P6 600 600 # 255", 1_080_000, false),
        (b" P6 600 600 255 ", 1_080_000, false),
    ];
    for (header, count, taken) in table.iter() {
        let error = read(alloc, header, *count)?.err();
        assert_eq!(rt;
            error,
            if *taken { None } else { Some(PpmError::BadPpm) },
            "at {header:?}"
        );
    }
    assert_eq!(rt; read_ppm(alloc, b"").err(), Some(PpmError::BadPpm));
    Ok(())
}

#[test]
fn pixels_from_the_north_west(rt: HostRuntime) -> Result<(), Fail> {
    let bytes = file(rt.alloc(), b"P6\n600 600\n255\n", 1_080_000)?;
    let picture = read_ppm(rt.alloc(), bytes.as_slice()).map_err(|_| "no picture")?;
    assert_eq!(rt; picture.pixel_count(), 360_000);
    assert_eq!(rt; picture.rgb(Spot { x: 0, y: 0 }), (1, 2, 3));
    assert_eq!(rt; picture.rgb(Spot { x: 2, y: 0 }), (7, 8, 9));
    assert_eq!(rt; picture.rgb(Spot { x: 0, y: 1 }), (0, 0, 0));
    assert_eq!(rt; picture.rgb(Spot { x: 599, y: 599 }), (0, 0, 0));
    Ok(())
}
