//! What a line of a session may say.
use fuun_base::BaseList;

/// What a line says. Numbers are at most 2^40.
#[derive(Debug, Drop)]
pub enum Line {
    /// No word: the line has no answer.
    Nothing,
    Ordered(Order),
    /// Words that are no order.
    Refused,
}

/// An order of a session.
#[derive(Debug, Drop)]
pub enum Order {
    /// So many attempts forward.
    Step(u64),
    /// So many attempts back.
    Back(u64),
    /// The number of the attempt, and the length of the DNA.
    Where,
    /// The bases from place `lo` to before place `hi`.
    Show { lo: u64, hi: u64 },
    /// The pattern and the template of the next attempt.
    Pair,
    /// The commands that the next attempt gives.
    Rna,
    /// How the match of the next attempt goes.
    Match,
    /// So many attempts forward, each of them told.
    Trace(u64),
    /// Attempts forward, at least one, up to what is sought.
    Until(Until),
}

/// Where attempts are to stop.
#[derive(Debug, Drop)]
pub enum Until {
    /// Behind the first attempt that did not match.
    NoMatch,
    /// Before an attempt that gives a command.
    Rna,
    /// Where the DNA begins with these bases, which are one or more.
    Front(BaseList),
    /// Where the DNA has at most so many bases.
    Length(u64),
}
