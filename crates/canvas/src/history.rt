//! Which inks a bucket has been given. Only proofs read it: it takes no memory, and its calls do
//! nothing.

ghost use Rattle.std.specs.Prelude.{◌≡◌, List, [], ◌∷◌, ◌++◌};
ghost use Rattle.std.specs.Borrow.{ftrue};
ghost use Rattle.rna_code.specs.declared.acts.Ink.{Ink};

use rna_code::Ink;
use std::marker::Model;

#[derive(Drop)]
pub(crate) struct History {
    ghost inks: { List Ink },
}

impl Model for History {
    ghost also_owns = { λ _. ftrue };
}

impl History {
    pub(crate) fn new() -> History
        ensures { result.inks ≡ [] }
    {
        History {}
    }

    pub(crate) fn and(&self, ink: &Ink) -> History
        ensures { result.inks ≡ self.now.inks ++ ink.now ∷ [] }
    {
        History {}
    }
}
