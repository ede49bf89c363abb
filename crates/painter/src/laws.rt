//! What holds of every picture. Each call does nothing: its clause is the law.

ghost use Rattle.painter.specs.PictureLaws.{ActsAlways, ActsOnce, BuildsAlways, BuildsOnce, StartIsPicture};

/// The start is a picture: 1 to the most bitmaps of the side, and the position and the mark on them.
pub fn start_is_a_picture()
    ensures { StartIsPicture }
{}

/// An act makes exactly one picture of each picture.
pub fn an_act_has_one_outcome()
    ensures some { ActsAlways }
    ensures one { ActsOnce }
{}

/// Commands build exactly one picture from each picture.
pub fn commands_build_one_picture()
    ensures some { BuildsAlways }
    ensures one { BuildsOnce }
{}
