//! Pictures as files in the raw form of Netpbm's PPM.
#![tactic(auto)]

ghost use Rattle.std.specs.Prelude.{◌≡◌, ◌+◌, ◌*◌, ◌≤◌, ◌++◌, length, take, drop, flat_map};
ghost use Rattle.fuun_io.specs.Counts.{HasCause};
ghost use Rattle.fuun_io.specs.Written.{Puts};
ghost use Rattle.canvas.specs.Pixels.{Rgba};
ghost use Rattle.ppm_out.specs.Ppm.{header, ppm, rgb_bytes};

use canvas::{Bitmap, Pixel};
use fuun_io::{Sink, WriteFault, put_all, put_pieces};
use itoa::Buffer;

// How many pixels are put at a time, and their bytes.
const BATCH: usize = 1024;

const BATCH_BYTES: usize = 3072;

/// Writes a bitmap as a picture: each pixel's red, green and blue, whatever its alpha. After an error
/// a front of the file is written.
pub fn write_ppm<const SIDE: usize, S: Sink>(
    bitmap: &Bitmap<SIDE>,
    sink: &mut S,
) -> Result<(), WriteFault>
    ensures puts { Puts result (S.bytes sink.old) (S.bytes sink.new) (ppm SIDE bitmap.now) }
    ensures cause { HasCause (S.faults sink.old) (S.faults sink.new) result }
{
    put_header(SIDE, sink)?;
    put_pixels(bitmap.pixels(), sink)
}

// Writes the lines before the pixels.
fn put_header<S: Sink>(side: usize, sink: &mut S) -> Result<(), WriteFault>
    ensures puts { Puts result (S.bytes sink.old) (S.bytes sink.new) (header side) }
    ensures cause { HasCause (S.faults sink.old) (S.faults sink.new) result }
{
    let mut buffer = Buffer::new();
    let side = buffer.format(side).as_bytes();
    put_pieces(
        sink,
        &[
            b"P6\n".as_slice(),
            side,
            b" ".as_slice(),
            side,
            b"\n255\n".as_slice(),
        ],
    )
}

// Writes the colours of pixels, some at a time.
fn put_pixels<S: Sink>(pixels: &[Pixel], sink: &mut S) -> Result<(), WriteFault>
    ensures puts { Puts result (S.bytes sink.old) (S.bytes sink.new) (flat_map rgb_bytes pixels.now) }
    ensures cause { HasCause (S.faults sink.old) (S.faults sink.new) result }
{
    let mut bytes = [0; BATCH_BYTES];
    let mut start = 0;
    while start < pixels.len() {
        let stop = pixels.len().min(start + BATCH);
        let len = pack(&pixels[start..stop], &mut bytes);
        put_all(sink, &bytes[..len])?;
        start = stop;
    }
    Ok(())
}

// Writes the colours of pixels to the front of `out`, and answers how many bytes they are.
fn pack(pixels: &[Pixel], out: &mut [u8]) -> usize
    requires { 3 * length pixels.now ≤ length out.old }
    ensures len { result ≡ 3 * length pixels.now }
    ensures packed { out.new ≡ flat_map rgb_bytes pixels.now ++ drop result out.old }
{
    let mut at = 0;
    for pixel in pixels {
        pack_one(*pixel, out, at);
        at += 3;
    }
    at
}

// Writes the colours of a pixel at a place.
fn pack_one(pixel: Pixel, out: &mut [u8], at: usize)
    requires { at + 3 ≤ length out.old }
    ensures { out.new ≡ take at out.old ++ (rgb_bytes pixel ++ drop (at + 3) out.old) }
{
    out[at..at + 3].copy_from_slice(&[pixel.r(), pixel.g(), pixel.b()]);
}

#[cfg(test)]
mod tests;
