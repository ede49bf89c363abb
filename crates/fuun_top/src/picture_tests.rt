//! The pictures that the verbs write.
ghost use Rattle.std.specs.Prelude.{◌≡◌, ◌<◌};

use crate::tests::words;
use crate::{Status, fuun};
use fuun_base::Steps;
use fuun_io::{MemFolder, MemSink};
use std::alloc::{AllocError, Global};
use std::marker::Brand;
use std::process::Abort;
use std::sync::ledger::{Blank, Ledger};
use std::test::Fail;

/// Asks for the words over the file `a`, and compares the picture: one pixel, and all others.
fn expect_picture<L: Ledger>(
    rt: &impl Abort,
    alloc: Global,
    blank: Blank,
    words: &[String],
    file: &[u8],
    picture: &Expected,
) -> Result<(), Fail>
    requires name { blank.name ≡ L.name }
    requires parts { blank.parts ≡ L.parts }
    requires some { 0 < L.parts }
{
    let mut steps = Steps::<L>::new(blank);
    let mut folder = MemFolder::new(alloc);
    folder.add("a", file)?;
    let mut sink = MemSink::with_room(alloc, 3_145_745)?;
    let answer = fuun(alloc, words, &mut folder, &mut sink, &mut steps);
    assert_eq!(rt; answer, Status::Done);
    compare(rt, sink.bytes(), picture);
    Ok(())
}

/// A picture of one colour but for the pixel at one place.
#[derive(Clone, Copy)]
struct Expected {
    header: &'static [u8],
    len: usize,
    at: usize,
    pixel: [u8; 3],
    others: [u8; 3],
}

fn compare(rt: &impl Abort, bytes: &[u8], picture: &Expected) {
    assert_eq!(rt; bytes.len(), picture.len);
    let (header, pixels) = bytes.split_at(picture.header.len().min(bytes.len()));
    assert_eq!(rt; header, picture.header);
    for (place, pixel) in pixels.chunks(3).enumerate() {
        let want = if place == picture.at {
            picture.pixel
        } else {
            picture.others
        };
        assert_eq!(rt; pixel, want.as_slice(), "at {place}");
    }
}

/// A plain picture of one colour but for the pixel at one place.
fn plain(at: usize, pixel: [u8; 3], others: [u8; 3]) -> Expected {
    Expected {
        header: b"P6\n600 600\n255\n".as_slice(),
        len: 1_080_015,
        at,
        pixel,
        others,
    }
}

/// A wide picture of one colour.
fn wide(colour: [u8; 3]) -> Expected {
    Expected {
        header: b"P6\n1024 1024\n255\n".as_slice(),
        len: 3_145_745,
        at: 0,
        pixel: colour,
        others: colour,
    }
}

const BLANK: [u8; 3] = [0, 0, 0];

const RED: [u8; 3] = [255, 0, 0];

#[test]
fn images_of_small_files(rt: HostRuntime) -> Result<(), Fail> {
    let red = b"IIIPIPIIIPIIIPIIPIIP".as_slice();
    for (line, file, picture) in [
        (
            "image --dna a --budget 1",
            b"".as_slice(),
            plain(0, BLANK, BLANK),
        ),
        ("image --dna a --budget 1", red, plain(0, RED, RED)),
        ("image --profile wide --dna a", red, wide(RED)),
    ] {
        let words = words(rt.alloc(), line)?;
        expect_picture::<Brand>(&rt, rt.alloc(), Blank::new(1), &words, file, &picture)?;
    }
    Ok(())
}

/// The lines of an RNA file: each command so many times.
fn rna_lines(alloc: Global, parts: &[(usize, &str)]) -> Result<Vec<u8>, AllocError> {
    let mut file = Vec::new(alloc);
    for (count, command) in parts {
        for _ in 0..*count {
            file.extend_from_slice(command.as_bytes())?;
            file.push(b'\n')?;
        }
    }
    Ok(file)
}

#[test]
fn drawings_of_small_files(rt: HostRuntime) -> Result<(), Fail> {
    for (parts, at, pixel, others) in [
        ([(1, "PIPIIIP"), (1, "PIIPIIP")].as_slice(), 0, RED, RED),
        ([(1, "PFFICCP")].as_slice(), 0, BLANK, BLANK),
        (
            [(1, "PIPIIPF"), (2, "PIPIIPP"), (1, "PFFICCP")].as_slice(),
            0,
            BLANK,
            BLANK,
        ),
        (
            [
                (1, "PIPIIIC"),
                (1, "PIPIICF"),
                (1, "PIPIIFF"),
                (1, "PFFICCP"),
            ]
            .as_slice(),
            0,
            [85, 170, 85],
            BLANK,
        ),
        (
            [
                (1, "PIPIICF"),
                (1, "PIPIIPF"),
                (1, "PIPIIPP"),
                (1, "PFFICCP"),
            ]
            .as_slice(),
            0,
            [127, 127, 0],
            BLANK,
        ),
        (
            [
                (18, "PIPIIIC"),
                (7, "PIPIIIP"),
                (39, "PIPIIFC"),
                (10, "PIPIIPC"),
                (3, "PIPIIPP"),
                (1, "PIPIIPF"),
                (1, "PFFICCP"),
            ]
            .as_slice(),
            0,
            [143, 25, 125],
            BLANK,
        ),
        (
            [
                (1, "PIPIIIP"),
                (1, "PCCCCCP"),
                (1, "PIIIIIP"),
                (1, "PCCIFFP"),
                (1, "PFFICCP"),
            ]
            .as_slice(),
            599 * 600,
            RED,
            BLANK,
        ),
        (
            [
                (1, "PIPIIIP"),
                (1, "PIIPIIP"),
                (1, "PCCPFFP"),
                (1, "PIIPICP"),
                (1, "PIPIICP"),
                (1, "PIPIIPF"),
                (1, "PIPIIPP"),
                (1, "PIIPIIP"),
                (1, "PFFPCCP"),
            ]
            .as_slice(),
            0,
            [128, 0, 127],
            [128, 0, 127],
        ),
        (
            [
                (1, "PIPIIIP"),
                (1, "PIIPIIP"),
                (1, "PCCPFFP"),
                (1, "PIIPICP"),
                (1, "PIPIICP"),
                (1, "PIPIIPF"),
                (1, "PIPIIPP"),
                (1, "PIIPIIP"),
                (1, "PFFICCF"),
            ]
            .as_slice(),
            0,
            [127, 0, 0],
            [127, 0, 0],
        ),
    ] {
        let file = rna_lines(rt.alloc(), parts)?;
        let picture = plain(at, pixel, others);
        let words = words(rt.alloc(), "draw --rna a")?;
        expect_picture::<Brand>(&rt, rt.alloc(), Blank::new(1), &words, &file, &picture)?;
    }
    Ok(())
}

#[test]
fn a_copied_layer_is_in_the_wide_profile_alone(rt: HostRuntime) -> Result<(), Fail> {
    let copied = b"PIPIIIP\nPIPIIPF\nPIPIIPP\nPIIPIIP\nPIPIIFP\nPFFPCCP\n".as_slice();
    for (line, file, picture) in [
        (
            "draw --rna a --profile wide",
            b"PIPIIIP\nPIIPIIP\n".as_slice(),
            wide(RED),
        ),
        ("draw --rna a --profile wide", copied, wide([0xBE, 0, 0])),
        (
            "draw --rna a --profile=plain",
            copied,
            plain(0, [0x7F, 0, 0], [0x7F, 0, 0]),
        ),
    ] {
        let words = words(rt.alloc(), line)?;
        expect_picture::<Brand>(&rt, rt.alloc(), Blank::new(1), &words, file, &picture)?;
    }
    Ok(())
}
