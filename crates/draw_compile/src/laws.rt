//! What holds of the definitions. Each call does nothing: its clause is the law.
ghost use Rattle.draw_compile.specs.Law.{DrawingDraws};
ghost use Rattle.draw_compile.specs.Lengths.{LengthByRuns};

/// The machine's run on the DNA of a picture, with a budget of one attempt and any limit that the DNA is within, finishes
/// in that attempt, and its RNA builds the picture in the plain profile: at each spot the picture's red, green and blue
/// with alpha 255.
pub fn drawing_draws()
    ensures { DrawingDraws }
{}

/// The length of the DNA of a picture: ten bases a command, of which there are 256 for each filling of the bucket, two
/// for each run beside one for each pixel, and three for each row.
pub fn length_by_runs()
    ensures { LengthByRuns }
{}
