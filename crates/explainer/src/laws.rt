//! What holds of the definitions. Each call does nothing: its clause is the law.
ghost use Rattle.dna_reader.specs.Tables.{pattern_table, template_table};
ghost use Rattle.explainer.specs.Laws.{ReadsLonger, LeadsAreNoFailures, LeadsDoNotDepend, FailuresDoNotDepend, HasOneAttempt, AttemptsDoNotDepend, HasOneRun, AttemptIsFilled, RunIsFilled};
ghost use Rattle.explainer.specs.Answers.{HasAttemptOrDepends, HasRun, HasExplanation, ExplanationIsOne, FoundForEveryTarget, TooLongForEveryTarget};

/// A reading that comes to its end is that of each longer DNA.
pub fn longer_readings()
    ensures pattern { ReadsLonger pattern_table }
    ensures template { ReadsLonger template_table }
{}

/// Items lead through cells, or fail there, or depend on the target: only one of these.
pub fn one_way_along()
    ensures no_failure { LeadsAreNoFailures }
    ensures leads { LeadsDoNotDepend }
    ensures failures { FailuresDoNotDepend }
{}

/// Cells have one attempt at most, and none where it depends on the target.
pub fn one_attempt_on_cells()
    ensures once { HasOneAttempt }
    ensures apart { AttemptsDoNotDepend }
{}

/// Cells have one run at most, for a budget and a limit.
pub fn one_run_on_cells()
    ensures { HasOneRun }
{}

/// The attempt on cells is the machine's for every target.
pub fn attempt_for_every_target()
    ensures { AttemptIsFilled }
{}

/// A run on cells that does not depend on the target is the machine's run for every target of that length.
pub fn run_for_every_target()
    ensures { RunIsFilled }
{}

/// Cells have an attempt, or it depends on the target; so they have a run for each budget and limit.
pub fn run_on_cells()
    ensures attempt { HasAttemptOrDepends }
    ensures run { HasRun }
{}

/// There is one answer for each prefix, length of the target, budget and limit.
pub fn one_explanation()
    ensures made { HasExplanation }
    ensures once { ExplanationIsOne }
{}

/// The answer holds of the machine for every target of that length. The segments give its last DNA.
pub fn explanation_for_every_target()
    ensures found { FoundForEveryTarget }
    ensures too_long { TooLongForEveryTarget }
{}
