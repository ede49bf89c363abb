//! The bucket of colours and alphas.

ghost use Rattle.std.specs.Prelude.{◌≡◌, ◌+◌, ◌*◌, ◌/◌, ◌^◌, ◌<◌, ◌≤◌, [], ◌∷◌, ◌++◌, length, option_map};
ghost use Rattle.canvas.specs.Buckets.{alpha_of, colour_of, current_pixel, rgb};

use crate::average::Average;
use crate::history::History;
use crate::pixel::Pixel;
use rna_code::Ink;
use std::marker::Model;

/// The bucket: the colours and alphas that were added since it was last empty.
#[derive(Drop)]
pub struct Bucket {
    red: Average,
    green: Average,
    blue: Average,
    alpha: Average,
    history: History,
}

impl Model for Bucket {
    ghost use Rattle.std.specs.Prelude.{List};
    ghost use Rattle.rna_code.specs.declared.acts.Ink.{Ink};
    ghost use Rattle.canvas.specs.Tally.{IsTally};

    ghost Value = { List Ink };

    ghost view = { λ b. b.history.inks };

    ghost invariant = { λ b. IsTally b.history.inks b.red b.green b.blue b.alpha };
}

impl Bucket {
    /// The empty bucket.
    pub fn new() -> Bucket
        ensures { result ≡ [] }
    {
        Bucket {
            red: Average::new(),
            green: Average::new(),
            blue: Average::new(),
            alpha: Average::new(),
            history: History::new(),
        }
    }

    /// Adds an ink.
    pub fn add(&mut self, ink: Ink)
        requires { length self.old < 2 ^ 100 }
        ensures { self.new ≡ self.old ++ ink ∷ [] }
    {
        self.history = self.history.and(&ink);
        match colour_of(ink) {
            Some((red, green, blue)) => {
                self.red.add(red);
                self.green.add(green);
                self.blue.add(blue);
            }
            None => {
                if let Some(alpha) = alpha_of(ink) {
                    self.alpha.add(alpha);
                }
            }
        }
    }

    /// Takes everything out.
    pub fn empty(&mut self)
        ensures { self.new ≡ [] }
    {
        *self = Bucket::new();
    }

    /// The current pixel: the average colour, or black where there is none, under the average
    /// alpha, or 255 where there is none. The averages are rounded down, and so is each colour times
    /// the alpha, divided by 255.
    pub fn pixel(&self) -> Pixel
        ensures { result ≡ current_pixel self.now }
    {
        let alpha = self.alpha.or(255);
        let red = scaled(self.red.or(0), alpha);
        let green = scaled(self.green.or(0), alpha);
        let blue = scaled(self.blue.or(0), alpha);
        Pixel::of(red, green, blue, alpha)
    }
}

// A channel under an alpha.
fn scaled(channel: u8, alpha: u8) -> u8
    ensures value { result ≡ channel * alpha / 255 }
    ensures capped { result ≤ alpha }
{
    (u32::from(channel) * u32::from(alpha) / 255) as u8
}

// The red, green and blue of a colour.
fn colour_of(ink: Ink) -> Option<(u8, u8, u8)>
    ensures { option_map (λ c. rgb c.0 c.1 c.2) result ≡ colour_of ink }
{
    match ink {
        Ink::Black => Some((0, 0, 0)),
        Ink::Red => Some((255, 0, 0)),
        Ink::Green => Some((0, 255, 0)),
        Ink::Yellow => Some((255, 255, 0)),
        Ink::Blue => Some((0, 0, 255)),
        Ink::Magenta => Some((255, 0, 255)),
        Ink::Cyan => Some((0, 255, 255)),
        Ink::White => Some((255, 255, 255)),
        Ink::Transparent | Ink::Opaque => None,
    }
}

// The alpha of an alpha ink.
fn alpha_of(ink: Ink) -> Option<u8>
    ensures { result ≡ alpha_of ink }
{
    match ink {
        Ink::Transparent => Some(0),
        Ink::Opaque => Some(255),
        _ => None,
    }
}
