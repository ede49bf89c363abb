//! What holds of the definitions. Each call does nothing: its clause is the law.
ghost use Rattle.exec_loop.specs.Attempt.{IsAttempt};
ghost use Rattle.exec_loop.specs.Laws.{HasAttempt, HasOneAttempt, HasRun, HasOneRun, HasWeight, HasOneWeight, RunHasWeight, RunHasOneWeight, RunGoesOn, RunGivesCommands, RunStaysWithin};
ghost use Rattle.exec_loop.specs.Worked.{matching_dna, matching_attempt, failing_dna, failing_attempt, finishing_dna, finishing_attempt};

/// Under every limit each DNA has exactly one attempt.
pub fn one_attempt()
    ensures made { HasAttempt }
    ensures once { HasOneAttempt }
{}

/// For every budget and limit each DNA has exactly one run.
pub fn one_run()
    ensures made { HasRun }
    ensures once { HasOneRun }
{}

/// A run that spent its budget goes on from the DNA that it left.
pub fn runs_join()
    ensures { RunGoesOn }
{}

/// What a run leaves: its RNA is of commands of at most seven bases, and its DNA is within the limit where the first one is.
pub fn runs_are_bounded()
    ensures rna { RunGivesCommands }
    ensures dna { RunStaysWithin }
{}

/// Each attempt has exactly one weight.
pub fn one_weight()
    ensures made { HasWeight }
    ensures once { HasOneWeight }
{}

/// The attempts of each run have exactly one weight together.
pub fn one_weight_together()
    ensures made { RunHasWeight }
    ensures once { RunHasOneWeight }
{}

/// Worked attempts: one that matches, one that does not, and one that finishes.
pub fn attempts_worked()
    ensures matching { IsAttempt matching_dna 30 matching_attempt }
    ensures failing { IsAttempt failing_dna 9 failing_attempt }
    ensures finishing { IsAttempt finishing_dna 4 finishing_attempt }
{}
