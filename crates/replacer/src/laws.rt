//! What holds of the definitions. Each call does nothing: its clause is the law.
ghost use Rattle.replacer.specs.Worked.{ReplacementWorked};

/// Some replacements.
pub fn replacement_worked()
    ensures { ReplacementWorked }
{}
