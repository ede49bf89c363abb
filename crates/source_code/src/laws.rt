//! What holds of the definitions. Each call does nothing: its clause is the law.
ghost use Rattle.source_code.specs.Laws.{AnswerIsOne, CodeHasLength, CodesHaveLengths, HasAnswer, HasLengths, KeptAnswersAlike, LengthsAreOne, NamesAreDistances, OthersAreBehind, PairIsRead, PairIsReadInPlace, ReadableAlike};

/// Lines have exactly one list of lengths.
pub fn one_list_of_lengths()
    ensures made { HasLengths }
    ensures once { LengthsAreOne }
{}

/// Lines have exactly one answer.
pub fn one_answer()
    ensures made { HasAnswer }
    ensures once { AnswerIsOne }
{}

/// The answer for lines as they are kept is that for the lines.
pub fn kept_lines()
    ensures { KeptAnswersAlike }
{}

/// The codes of lines are as long as the lengths say, and stand one behind the other.
pub fn lengths_of_codes()
    ensures line { CodeHasLength }
    ensures all { CodesHaveLengths }
    ensures behind { OthersAreBehind }
{}

/// The names in a sum stand for distances in the DNA.
pub fn names_are_distances()
    ensures { NamesAreDistances }
{}

/// A pair is read where its code begins, with its sums' values; whether it can be read does not depend on them.
pub fn pairs_are_read()
    ensures read { PairIsRead }
    ensures in_place { PairIsReadInPlace }
    ensures alike { ReadableAlike }
{}
