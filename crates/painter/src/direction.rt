//! Where the position goes.

ghost use Rattle.std.specs.Prelude.{◌≡◌, ◌<◌, ◌≤◌};
ghost use Rattle.painter.specs.Picture.{left_of, moved, right_of};

use canvas::Spot;

/// The direction of a move.
#[derive(Clone, Copy, PartialEq, Eq, Debug)]
pub enum Direction {
    North,
    East,
    South,
    West,
}

impl Direction {
    // A quarter turn counter-clockwise.
    pub(crate) fn left(self) -> Direction
        ensures { result ≡ left_of self }
    {
        match self {
            Direction::North => Direction::West,
            Direction::East => Direction::North,
            Direction::South => Direction::East,
            Direction::West => Direction::South,
        }
    }

    // A quarter turn clockwise.
    pub(crate) fn right(self) -> Direction
        ensures { result ≡ right_of self }
    {
        match self {
            Direction::North => Direction::East,
            Direction::East => Direction::South,
            Direction::South => Direction::West,
            Direction::West => Direction::North,
        }
    }

    // One pixel further, round the edges of a bitmap of this side.
    pub(crate) fn step(self, from: Spot, side: u32) -> Spot
        requires side { side ≤ 1024 }
        requires inside { (from.x < side) × (from.y < side) }
        ensures spot { result ≡ moved side self from }
        ensures inside { (result.x < side) × (result.y < side) }
    {
        let Spot { x, y } = from;
        match self {
            Direction::North => Spot {
                x,
                y: (y + side - 1) % side,
            },
            Direction::East => Spot {
                x: (x + 1) % side,
                y,
            },
            Direction::South => Spot {
                x,
                y: (y + 1) % side,
            },
            Direction::West => Spot {
                x: (x + side - 1) % side,
                y,
            },
        }
    }
}
