//! What holds of the definitions. Each call does nothing: its clause is the law.
ghost use Rattle.patch_compile.specs.Law.{PrefixCarriesOut};
ghost use Rattle.patch_compile.specs.Worked.{EditWorked, TwoEditsWorked, MoveWorked, CopyWorked};

/// The prefix of rows that fit a length, before any DNA of that length, makes the machine carry the rows out: with as
/// many attempts as there are rows and a limit that each DNA on the way is within, the run spends its budget, matches in
/// each attempt, gives no RNA, and leaves exactly the DNA that the rows make of it.
pub fn prefix_carries_out()
    ensures { PrefixCarriesOut }
{}

/// Worked prefixes: an edit, two edits, a move, and a copy to a place within what is copied.
pub fn prefixes_worked()
    ensures edited { EditWorked }
    ensures edited_twice { TwoEditsWorked }
    ensures moved { MoveWorked }
    ensures copied { CopyWorked }
{}
