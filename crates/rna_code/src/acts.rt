//! What a command of RNA does.

/// What is added to the bucket: one of eight colours, or one of two alphas.
#[derive(Clone, Copy, PartialEq, Eq, Debug)]
pub enum Ink {
    /// Red, green and blue 0, 0, 0.
    Black,
    /// 255, 0, 0.
    Red,
    /// 0, 255, 0.
    Green,
    /// 255, 255, 0.
    Yellow,
    /// 0, 0, 255.
    Blue,
    /// 255, 0, 255.
    Magenta,
    /// 0, 255, 255.
    Cyan,
    /// 255, 255, 255.
    White,
    /// The alpha 0.
    Transparent,
    /// The alpha 255.
    Opaque,
}

/// What a command does to the picture.
#[derive(Clone, Copy, PartialEq, Eq, Debug)]
pub enum Act {
    /// Adds an ink to the bucket.
    Add(Ink),
    /// Empties the bucket.
    EmptyBucket,
    /// Moves the position one pixel in the direction.
    Move,
    /// Turns the direction counter-clockwise.
    TurnLeft,
    /// Turns the direction clockwise.
    TurnRight,
    /// Sets the mark to the position.
    Mark,
    /// Draws a line from the position to the mark on the top bitmap.
    Line,
    /// Fills at the position on the top bitmap.
    Fill,
    /// Adds a transparent bitmap.
    AddLayer,
    /// Adds a copy of the top bitmap.
    CopyLayer,
    /// Composes the two top bitmaps.
    Compose,
    /// Clips the two top bitmaps.
    Clip,
}
