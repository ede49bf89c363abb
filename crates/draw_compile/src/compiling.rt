//! From a picture to the DNA that draws it.
ghost use Rattle.std.specs.Prelude.{◌≡◌, ◌^◌, ◌<◌, ◌≤◌, Err, IfOk, length};
ghost use Rattle.draw_compile.specs.Drawing.{drawing};
ghost use Rattle.draw_compile.specs.Law.{Draws};

use crate::counting::drawing_len;
use crate::drawing::drawing_of;
use fuun_base::BaseList;
use picture_in::Picture;
use std::alloc::Global;

/// Why a picture has no DNA.
#[derive(Clone, Copy, Debug, PartialEq, Eq)]
pub enum DrawError {
    /// The DNA is longer than the limit.
    TooLong,
    NoMemory,
}

/// The DNA that draws a picture, of at most `limit` bases, where `limit` is at most 2^40. Each run of equal pixels in a row
/// is drawn as a line, behind 255 inks whose average is its colour where the bucket holds another. The length, at most
/// 932,418,000 bases, is counted before any DNA is made.
pub fn compile_picture(alloc: Global, picture: &Picture, limit: u64) -> Result<BaseList, DrawError>
    requires { limit ≤ 2 ^ 40 }
    ensures drawing { IfOk result (λ list. list ≡ drawing picture.now) }
    ensures within { IfOk result (λ list. length list ≤ limit) }
    ensures most { IfOk result (λ list. length list ≤ 932418000) }
    ensures draws { IfOk result (λ list. Draws list picture.now) }
    ensures too_long { result ≡ Err DrawError.TooLong → limit < length (drawing picture.now) }
{
    let len = drawing_len(picture);
    if len > limit {
        return Err(DrawError::TooLong);
    }
    match drawing_of(alloc, picture, len as usize) {
        Ok(bases) => match BaseList::from_vec(alloc, bases) {
            Ok(list) => Ok(list),
            Err(_) => Err(DrawError::NoMemory),
        },
        Err(_) => Err(DrawError::NoMemory),
    }
}
