//! What holds of the definitions. Each call does nothing: its clause is the law.
ghost use Rattle.workload.specs.Laws.{TargetIsCounted, RowsAreCounted, RowsFit, RowsAreLight, LengthsStay, MarkGoesOn};

/// The target of each seed has its size, and there is one row a round.
pub fn counts()
    ensures target { TargetIsCounted }
    ensures rows { RowsAreCounted }
{}

/// Each row of each seed fits the length at its turn.
pub fn rows_fit()
    ensures { RowsFit }
{}

/// Rows cut at most 15 bases and put at most seven, so that lengths stay bounded.
pub fn rows_are_light()
    ensures light { RowsAreLight }
    ensures lengths { LengthsStay }
{}

/// The mark of joined lists goes on from the first list's.
pub fn mark_goes_on()
    ensures { MarkGoesOn }
{}
