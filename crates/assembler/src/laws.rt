//! What holds of the definitions. Each call does nothing: its clause is the law.
ghost use Rattle.assembler.specs.Laws.{AnswerIsOne, AssembledIsRead, HasAnswer, ListedIsAssembled, ListingShowsLines, RefusedIsNotRead, TextIsOfOne};

/// Each text has exactly one answer.
pub fn one_answer()
    ensures made { HasAnswer }
    ensures once { AnswerIsOne }
{}

/// A line is the text of at most one pair whose numbers are all below 2^63.
pub fn one_pair()
    ensures { TextIsOfOne }
{}

/// Assembled DNA is read as the pairs of its lines, and a line that is refused for its pattern has no DNA without RNA.
pub fn codes_of_lines()
    ensures read { AssembledIsRead }
    ensures refused { RefusedIsNotRead }
{}

/// A listing of assembled DNA shows its lines again, and the text of pairs that a DNA is read as, without RNA and with
/// numbers below 2^63, is assembled to a DNA that is read as the same pairs.
pub fn listed_again()
    ensures shown { ListingShowsLines }
    ensures assembled { ListedIsAssembled }
{}
