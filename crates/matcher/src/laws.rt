//! What holds of the definitions. Each call does nothing: its clause is the law.
ghost use Rattle.matcher.specs.Laws.{HasMatchOrNone, AtMostOneMatch, EachEndHasPartner, OnePartner, HasGroups, OneListOfGroups};
ghost use Rattle.matcher.specs.Worked.{NestedGroups, SearchGoesOn, SearchFindsNone, SkipToTheEnd, SkipPastTheEnd};

/// Items have exactly one match on a DNA, or none.
pub fn one_match()
    ensures decided { HasMatchOrNone }
    ensures once { AtMostOneMatch }
{}

/// Each group end of balanced items belongs to exactly one group start.
pub fn one_partner()
    ensures has { EachEndHasPartner }
    ensures once { OnePartner }
{}

/// Balanced items have exactly one list of groups at every list of places.
pub fn one_list_of_groups()
    ensures has { HasGroups }
    ensures once { OneListOfGroups }
{}

/// Matches worked by hand: nested groups, a search, and a skip to the end of the DNA.
pub fn matches_worked()
    ensures nested { NestedGroups }
    ensures search { SearchGoesOn }
    ensures no_search { SearchFindsNone }
    ensures skip { SkipToTheEnd }
    ensures no_skip { SkipPastTheEnd }
{}
