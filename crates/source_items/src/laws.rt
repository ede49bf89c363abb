//! What holds of the definitions. The call does nothing: its clauses are the law.
ghost use Rattle.source_items.specs.Worked.{LongWorked, OwnLengthWorked, ValuesWorked};

/// A length that is its line's own number, the values of some sums, and the length of a long line.
pub fn values_worked()
    ensures own { OwnLengthWorked }
    ensures values { ValuesWorked }
    ensures long { LongWorked }
{}
