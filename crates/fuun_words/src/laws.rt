//! What holds of the definitions. Each call does nothing: its clause is the law.
ghost use Rattle.fuun_words.specs.Worked.{HasDefaults, HasAnyOrder, HasProfiles, HasLimits, RefusesWords};

/// Words that ask for something, and words that ask for nothing.
pub fn requests_worked()
    ensures defaults { HasDefaults }
    ensures any_order { HasAnyOrder }
    ensures profiles { HasProfiles }
    ensures limits { HasLimits }
    ensures refused { RefusesWords }
{}
