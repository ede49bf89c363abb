//! What holds of the definitions. Each call does nothing: its clause is the law.
ghost use Rattle.fuun_base.specs.OccurrenceLaws.{FirstIsOne, FirstIsNotAbsent, FirstOrAbsent};
ghost use Rattle.fuun_base.specs.QuoteLaws.{NumberZero, NumberDigit, NumberLength, NumbersWorked, BitsRise, ProtectOfNil, ProtectOfJoined, ProtectTwice, ProtectFour, ProtectWorked};
ghost use Rattle.fuun_base.specs.TallyLaws.{TallyOfJoined, TallyOfAll};

/// Zero, as bases, is P alone.
pub fn number_zero()
    ensures { NumberZero }
{}

/// Any other number, as bases, is its lowest digit (I where it is even, C where it is odd) before its half.
pub fn number_digit()
    ensures { NumberDigit }
{}

/// A number takes its binary digits and one base more.
pub fn number_length()
    ensures { NumberLength }
{}

/// A greater number has no fewer binary digits.
pub fn bits_rise()
    ensures { BitsRise }
{}

/// Some numbers and their bases.
pub fn numbers_worked()
    ensures { NumbersWorked }
{}

/// Nothing quoted is nothing, whatever the level.
pub fn protect_of_nil()
    ensures { ProtectOfNil }
{}

/// Quoting goes through joined lists.
pub fn protect_of_joined()
    ensures { ProtectOfJoined }
{}

/// Levels of quoting add up.
pub fn protect_twice()
    ensures { ProtectTwice }
{}

/// Four levels of quoting make a list at least twice as long.
pub fn protect_four()
    ensures { ProtectFour }
{}

/// Some lists and their quotes.
pub fn protect_worked()
    ensures { ProtectWorked }
{}

/// The tally of joined lists is the sum of their tallies.
pub fn tally_of_joined()
    ensures { TallyOfJoined }
{}

/// A tally counts each base of the list once.
pub fn tally_of_all()
    ensures { TallyOfAll }
{}

/// There is at most one first place where a list stands.
pub fn first_is_one()
    ensures { FirstIsOne }
{}

/// Where there is a first place, the list is not absent.
pub fn first_is_not_absent()
    ensures { FirstIsNotAbsent }
{}

/// Any list has a first place in another at or after any place, or is absent from there on.
pub fn first_or_absent()
    ensures { FirstOrAbsent }
{}
