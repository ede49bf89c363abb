use crate::{DrawError, compile_picture};
use fuun_base::BaseList;
use picture_in::{Picture, read_ppm};
use std::alloc::Global;
use std::test::Fail;

// A picture that is black but for its first bytes.
fn picture(alloc: Global, first: &[u8]) -> Result<Picture, Fail> {
    let mut bytes = Vec::from_slice(alloc, b"P6 600 600 255 ")?;
    bytes.extend_from_slice(first)?;
    bytes.resize(15 + 1_080_000, 0)?;
    read_ppm(alloc, bytes.as_slice()).map_err(|_| "no picture".into())
}

// The letters from one place of a DNA to another.
fn letters(alloc: Global, dna: &BaseList, start: usize, stop: usize) -> Result<Vec<u8>, Fail> {
    let mut text = Vec::new(alloc);
    for base in dna.as_slice().get(start..stop).ok_or("too short")? {
        text.push(base.letter())?;
    }
    Ok(text)
}

#[test]
fn drawings(rt: HostRuntime) -> Result<(), Fail> {
    let alloc = rt.alloc();
    let black = "IIIPIPIIIC";
    let table: [(&[u8], usize, &str); 3] = [
        (b"", 3_632_560, "IIIPIIPICP"),
        (b"\x01\x01\x00", 3_635_140, "IIIPIIPICPIIIPIPIICF"),
        (b"\x00\x00\x00\x01\x01\x00", 3_637_720, "IIIPIIPICP"),
    ];
    for (first, len, start) in table.iter() {
        let picture = picture(alloc, first)?;
        let dna = compile_picture(alloc, &picture, *len as u64).map_err(|_| "no DNA")?;
        assert_eq!(rt; dna.len(), *len);
        assert_eq!(rt;
            letters(alloc, &dna, 0, start.len())?.as_slice(),
            start.as_bytes()
        );
        assert_eq!(rt;
            letters(alloc, &dna, 2550, 2560)?.as_slice(),
            black.as_bytes()
        );
        let end = letters(alloc, &dna, *len - 30, *len)?;
        assert_eq!(rt;
            end.as_slice(),
            b"IIIPFFFFFPIIIPIIIIIPIIIPCCCCCP".as_slice()
        );
        assert_eq!(rt;
            compile_picture(alloc, &picture, *len as u64 - 1).err(),
            Some(DrawError::TooLong)
        );
    }
    Ok(())
}
