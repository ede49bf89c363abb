//! One pixel of a bitmap, and where it stands.

ghost use Rattle.std.specs.Prelude.{◌≡◌, ◌≢◌, ◌+◌, ◌*◌, ◌^◌, ◌≤◌, true, false};
ghost use Rattle.std.specs.Option.{SomeIff};
ghost use Rattle.canvas.specs.Pixels.{Rgba, IsPremultiplied};

use std::marker::Model;

/// A place in a bitmap: `x` pixels from the west edge and `y` pixels from the north edge.
#[derive(Clone, Copy, PartialEq, Eq, Debug)]
pub struct Spot {
    pub x: u32,
    pub y: u32,
}

/// A pixel: red, green and blue, each 0 to its alpha, and the alpha, 0 to 255.
#[derive(Clone, Copy, PartialEq, Eq, Debug)]
pub struct Pixel {
    r: u8,
    g: u8,
    b: u8,
    a: u8,
}

impl Model for Pixel {
    ghost use Rattle.std.specs.Prelude.{◌≤◌};
    ghost use Rattle.canvas.specs.Pixels.{Rgba};

    ghost Value = { Rgba };

    ghost view = { λ p. record { red = p.r; green = p.g; blue = p.b; alpha = p.a } };

    ghost invariant = { λ p. (p.r ≤ p.a) × (p.g ≤ p.a) × (p.b ≤ p.a) };

    ghost inverse = { λ p. record { r = p.red; g = p.green; b = p.blue; a = p.alpha } };
}

impl Pixel {
    /// The pixel of these channels, or `None` where a colour is above the alpha.
    pub fn new(r: u8, g: u8, b: u8, a: u8) -> Option<Pixel>
        ensures { let p : Rgba = record { red = r; green = g; blue = b; alpha = a } in
            SomeIff result (IsPremultiplied p) p }
    {
        if r <= a && g <= a && b <= a {
            Some(Pixel { r, g, b, a })
        } else {
            None
        }
    }

    /// The pixel of these channels, none of the three colours above the alpha.
    pub fn of(r: u8, g: u8, b: u8, a: u8) -> Pixel
        requires { (r ≤ a) × (g ≤ a) × (b ≤ a) }
        ensures { result ≡ record { red = r; green = g; blue = b; alpha = a } }
    {
        Pixel { r, g, b, a }
    }

    /// Whether two pixels are equal in all four channels. It compares one number, where `==` goes
    /// from channel to channel.
    pub fn equals(self, other: Pixel) -> bool
        ensures equal { result ≡ true → self ≡ other }
        ensures unequal { result ≡ false → self ≢ other }
    {
        self.word() == other.word()
    }

    // The four channels in one number.
    fn word(self) -> u32
        ensures { result ≡ self.red + self.green * 2 ^ 8 + self.blue * 2 ^ 16 + self.alpha * 2 ^ 24 }
    {
        u32::from(self.r)
            + u32::from(self.g) * 256
            + u32::from(self.b) * 65_536
            + u32::from(self.a) * 16_777_216
    }

    /// The red channel.
    pub fn r(self) -> u8
        ensures value { result ≡ self.red }
        ensures capped { result ≤ self.alpha }
        ensures byte { self.alpha ≤ 255 }
    {
        self.r
    }

    /// The green channel.
    pub fn g(self) -> u8
        ensures value { result ≡ self.green }
        ensures capped { result ≤ self.alpha }
        ensures byte { self.alpha ≤ 255 }
    {
        self.g
    }

    /// The blue channel.
    pub fn b(self) -> u8
        ensures value { result ≡ self.blue }
        ensures capped { result ≤ self.alpha }
        ensures byte { self.alpha ≤ 255 }
    {
        self.b
    }

    /// The alpha: 0 is transparent, 255 is opaque.
    pub fn a(self) -> u8
        ensures value { result ≡ self.alpha }
        ensures byte { self.alpha ≤ 255 }
    {
        self.a
    }
}
