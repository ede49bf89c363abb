//! Two bitmaps made one, pixel by pixel.

ghost use Rattle.std.specs.Prelude.{◌≡◌, ◌+◌, ◌-◌, ◌*◌, ◌/◌, ◌≤◌, length};
ghost use Rattle.layers.specs.Layers.{clipped, each_place, over};

use canvas::Pixel;

/// Composes two bitmaps of one size: the pixels of the top one are then those over the next bitmap's.
pub(crate) fn compose(top: &mut [Pixel], next: &[Pixel])
    requires { length top.old ≡ length next.now }
    ensures { top.new ≡ each_place over top.old next.now }
{
    for (place, pixel) in top.iter_mut().enumerate() {
        *pixel = over(*pixel, next[place]);
    }
}

/// Clips two bitmaps of one size: the pixels of the top one are then the next bitmap's under its alphas.
pub(crate) fn clip(top: &mut [Pixel], next: &[Pixel])
    requires { length top.old ≡ length next.now }
    ensures { top.new ≡ each_place clipped top.old next.now }
{
    for (place, pixel) in top.iter_mut().enumerate() {
        *pixel = clipped(*pixel, next[place]);
    }
}

// A pixel over the next bitmap's.
#[tactic(auto, unfolding(crate::specs::Layers::over))]
fn over(top: Pixel, next: Pixel) -> Pixel
    ensures { result ≡ over top next }
{
    let alpha = top.a();
    Pixel::of(
        channel_over(top.r(), next.r(), alpha),
        channel_over(top.g(), next.g(), alpha),
        channel_over(top.b(), next.b(), alpha),
        channel_over(alpha, next.a(), alpha),
    )
}

// The next bitmap's pixel under the alpha of the top one.
#[tactic(auto, unfolding(crate::specs::Layers::clipped))]
fn clipped(top: Pixel, next: Pixel) -> Pixel
    ensures { result ≡ clipped top next }
{
    let alpha = top.a();
    Pixel::of(
        channel_under(next.r(), alpha),
        channel_under(next.g(), alpha),
        channel_under(next.b(), alpha),
        channel_under(next.a(), alpha),
    )
}

// A channel over the next bitmap's.
fn channel_over(top: u8, next: u8, alpha: u8) -> u8
    requires { top ≤ alpha }
    ensures { result ≡ top + next * (255 - alpha) / 255 }
{
    top + channel_under(next, 255 - alpha)
}

// A channel under an alpha.
fn channel_under(next: u8, alpha: u8) -> u8
    ensures value { result ≡ next * alpha / 255 }
    ensures capped { result ≤ alpha }
{
    (u32::from(next) * u32::from(alpha) / 255) as u8
}
