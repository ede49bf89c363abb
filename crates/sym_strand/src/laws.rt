//! What holds of the definitions. The call does nothing: its clauses are the laws.
ghost use Rattle.sym_strand.specs.Laws.{HasSegments, SegmentsAreOne};

/// Each list of cells has segments that stand for it, and the fewest are one list.
pub fn one_list_of_segments()
    ensures made { HasSegments }
    ensures once { SegmentsAreOne }
{}
