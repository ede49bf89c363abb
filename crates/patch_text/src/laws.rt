//! What holds of the definitions. Each call does nothing: its clause is the law.
ghost use Rattle.patch_text.specs.Outside.{FitHasNoOutside, OutsideIsFirst, OutsideIsOne};

/// The first row that does not fit is one, and there is one exactly where not all rows fit.
pub fn one_outside()
    ensures first { OutsideIsFirst }
    ensures none { FitHasNoOutside }
    ensures once { OutsideIsOne }
{}
