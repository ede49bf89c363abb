//! What holds of the definitions. Each call does nothing: its clause is the law.
ghost use Rattle.match_text.specs.Laws.{HasText, LedIsMatched, TextIsOne};

/// Exactly one text tells how balanced items go through a DNA.
pub fn one_text()
    ensures made { HasText }
    ensures once { TextIsOne }
{}

/// A text ends in `matches` where the items have a match, and its places are those of the match.
pub fn matches_where_they_match()
    ensures { LedIsMatched }
{}
