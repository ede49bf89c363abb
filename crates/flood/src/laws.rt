//! What holds of every region and of every fill. Each call does nothing: its clause is the law.

ghost use Rattle.flood.specs.FillLaws.{FillsAlways, FillsAreEqual, RegionsAreAlike, RegionsAreDecided, RegionsBegin};

/// Each spot has its region: every spot of the bitmap is of it or is not, the spot itself is, and
/// all of it holds equal pixels.
pub fn a_spot_has_its_region()
    ensures decided { RegionsAreDecided }
    ensures begins { RegionsBegin }
    ensures alike { RegionsAreAlike }
{}

/// Each bitmap that is filled becomes exactly one bitmap: what the clause of a fill says leaves no
/// other outcome.
pub fn a_fill_has_one_outcome()
    ensures some { FillsAlways }
    ensures one { FillsAreEqual }
{}
