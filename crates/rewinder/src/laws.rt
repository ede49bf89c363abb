//! What holds of the definitions. Each call does nothing: its clause is the law.
ghost use Rattle.rewinder.specs.Laws.{OrderIsOfLine, PlaceIsLeast, ScriptHasOneText, ScriptHasOneWeight, ScriptHasText, ScriptHasWeight, VersionIsOne};

/// The order that is found for a line is the one of which it is the line.
pub fn order_is_of_line()
    ensures { OrderIsOfLine }
{}

/// There is at most one version of a number.
pub fn version_is_one()
    ensures { VersionIsOne }
{}

/// A step comes to the least of what was asked for, of the attempts that give a next DNA, and of 2^24.
pub fn place_is_least()
    ensures { PlaceIsLeast }
{}

/// From each version the orders of a script write exactly one text.
pub fn one_text()
    ensures made { ScriptHasText }
    ensures once { ScriptHasOneText }
{}

/// From each version the orders of a script have exactly one weight.
pub fn one_weight()
    ensures made { ScriptHasWeight }
    ensures once { ScriptHasOneWeight }
{}
