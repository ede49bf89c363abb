//! A picture.
ghost use Rattle.std.specs.Prelude.{◌≡◌, ◌<◌, Err, IfErr, IfOk, Some, None, length};
ghost use Rattle.picture_in.specs.declared.picture.PpmError.TheVariants.{NoMemory as OutOfMemory};
ghost use Rattle.std.specs.Option.{option_copied};
ghost use Rattle.picture_in.specs.Pixmap.{IsPicture, front, picture_of, pixel_bytes, pixels_of, rgb_at};

use crate::header::behind_header;
use canvas::Spot;
use std::alloc::{AllocError, Global};
use std::marker::Model;

/// How many pixels a picture has on each side.
pub(crate) const SIDE: u32 = 600;

/// How many bytes its pixels are.
const BYTES: usize = 1_080_000;

/// A picture of 600 by 600 pixels, each of them a red, a green and a blue from 0 to 255. It is seen as the list of its
/// pixels, rows from the north, each from the west.
#[derive(Drop)]
pub struct Picture {
    bytes: Vec<u8>,
}

impl Model for Picture {
    ghost use Rattle.std.specs.Prelude.{List};
    ghost use Rattle.picture_in.specs.Pixmap.{ArePixels, Rgb, pixels_of};

    ghost Value = { List Rgb };

    ghost view = { λ p. pixels_of p.bytes.items };

    ghost invariant = { λ p. ArePixels p.bytes.items };
}

impl Picture {
    // The picture of the bytes of its pixels.
    fn new(alloc: Global, pixels: &[u8]) -> Result<Picture, PpmError>
        requires { length pixels.now ≡ 1080000 }
        ensures value { IfOk result (λ picture. picture ≡ pixels_of pixels.now) }
        ensures picture { IfOk result IsPicture }
        ensures memory { IfErr result (λ e. e ≡ OutOfMemory) }
    {
        let bytes = Vec::from_slice(alloc, pixels)?;
        Ok(Picture { bytes })
    }

    /// How many pixels it has: 360,000.
    pub fn pixel_count(&self) -> usize
        ensures count { result ≡ length self.now }
        ensures picture { IsPicture self.now }
    {
        self.bytes.len() / 3
    }

    /// The red, the green and the blue of a pixel, each from 0 to 255. Both coordinates are below 600. It takes constant
    /// time.
    pub fn rgb(&self, spot: Spot) -> (u8, u8, u8)
        requires { (spot.x < 600) × (spot.y < 600) }
        ensures value { result ≡ rgb_at self.now spot.x spot.y }
        ensures picture { IsPicture self.now }
    {
        let start = 3 * (spot.y * SIDE + spot.x) as usize;
        (
            self.bytes[start],
            self.bytes[start + 1],
            self.bytes[start + 2],
        )
    }
}

/// Why bytes are no picture.
#[derive(Clone, Copy, Debug, PartialEq, Eq)]
pub enum PpmError {
    /// The bytes do not begin with a raw pixmap of 600 by 600 pixels with channels up to 255.
    BadPpm,
    NoMemory,
}

impl From<AllocError> for PpmError {
    ghost from_gives = { λ _ e. e ≡ OutOfMemory };

    fn from(_: AllocError) -> Self {
        PpmError::NoMemory
    }
}

/// Reads a raw pixmap in the form of Netpbm's PPM: `P6`, the numbers 600, 600 and 255, each behind a gap, one white byte,
/// and 1,080,000 bytes of pixels, rows from the north, each from the west. A gap is one or more white bytes and comments;
/// a comment goes from `#` up to and with the next line feed. Bytes after the pixels are ignored.
pub fn read_ppm(alloc: Global, bytes: &[u8]) -> Result<Picture, PpmError>
    ensures value { IfOk result (λ picture. picture_of bytes.now ≡ Some picture) }
    ensures picture { IfOk result IsPicture }
    ensures bad { result ≡ Err PpmError.BadPpm → picture_of bytes.now ≡ None }
{
    match pixel_bytes(bytes) {
        Some(pixels) => Picture::new(alloc, pixels),
        None => Err(PpmError::BadPpm),
    }
}

#[tactic(auto, unfolding(crate::specs::Pixmap::pixel_bytes))]
// The bytes of the pixels, where there are all of them behind a header.
fn pixel_bytes(bytes: &[u8]) -> Option<&[u8]>
    ensures { option_copied result ≡ pixel_bytes bytes.now }
{
    let rest = behind_header(bytes)?;
    front(rest, BYTES)
}

#[tactic(auto, unfolding(crate::specs::Pixmap::front))]
// So many bytes in front, where there are as many.
fn front(bytes: &[u8], count: usize) -> Option<&[u8]>
    ensures { option_copied result ≡ front count bytes.now }
{
    if bytes.len() < count {
        return None;
    }
    Some(&bytes[..count])
}
