//! What holds of the definitions. Each call does nothing: its clause is the law.
ghost use Rattle.listing.specs.Laws.{HasListing, HasOneListing, HeldPatternHasItsText, HeldTemplateHasItsText};

/// Each DNA has exactly one listing of up to so many pairs.
pub fn one_listing()
    ensures made { HasListing }
    ensures once { HasOneListing }
{}

/// Items whose numbers are held have the text of the items that were read.
pub fn held_texts()
    ensures pattern { HeldPatternHasItsText }
    ensures template { HeldTemplateHasItsText }
{}
