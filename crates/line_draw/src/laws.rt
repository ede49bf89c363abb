//! What holds of every line. Each call does nothing: its clause is the law.

ghost use Rattle.line_draw.specs.LineLaws.{LinesAlways, LinesAreEqual, PointsAlways, PointsAreInside, PointsOnce};

/// Each line has exactly one list of points, and between two spots of a bitmap they are spots of it.
pub fn a_line_has_its_points()
    ensures some { PointsAlways }
    ensures one { PointsOnce }
    ensures inside { PointsAreInside }
{}

/// Each bitmap with a line drawn is exactly one bitmap: what the clause of a line says leaves no
/// other outcome.
pub fn a_line_has_one_outcome()
    ensures some { LinesAlways }
    ensures one { LinesAreEqual }
{}
