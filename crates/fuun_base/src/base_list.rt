ghost use Rattle.std.specs.Prelude.{◌≡◌, ◌↔◌, [], ◌∷◌, ◌++◌, length, slice_get, IsTrue, OnOk, OnErr, IfOk};
ghost use Rattle.std.specs.Option.{option_copied};

use crate::{Base, NoMemory};
use std::alloc::Global;
use std::marker::Model;

/// A list of bases that grows at its end. It is kept small, since a pattern of millions of items has room for one in each.
#[derive(Debug, Drop)]
pub struct BaseList {
    alloc: Global,
    bases: Option<Box<Vec<Base>>>,
}

impl Model for BaseList {
    ghost use Rattle.std.specs.Prelude.{List, []};
    ghost use Rattle.std.specs.Option.{option_map_or};
    ghost use Rattle.fuun_base.specs.declared.letters.Base.{Base};

    ghost Value = { List Base };

    ghost view = { λ list. option_map_or (λ bases. bases.value.items) list.bases [] };
}

impl BaseList {
    /// The list of no bases, with no memory taken.
    pub fn new(alloc: Global) -> Self
        ensures { result ≡ [] }
    {
        BaseList { alloc, bases: None }
    }

    /// The list of a vector's bases.
    pub fn from_vec(alloc: Global, bases: Vec<Base>) -> Result<BaseList, NoMemory>
        ensures { IfOk result (λ list. list ≡ bases.items) }
    {
        Ok(BaseList {
            alloc,
            bases: Some(Box::new(alloc, bases)?),
        })
    }

    /// Adds a base at the end.
    pub fn push(&mut self, base: Base) -> Result<(), NoMemory>
        ensures added { OnOk result (self.new ≡ self.old ++ base ∷ []) }
        ensures unchanged { OnErr result (self.new ≡ self.old) }
    {
        match &mut self.bases {
            Some(bases) => bases.push(base)?,
            None => {
                let mut bases = Vec::new(self.alloc);
                bases.push(base)?;
                self.bases = Some(Box::new(self.alloc, bases)?);
            }
        }
        Ok(())
    }

    pub fn len(&self) -> usize
        ensures { result ≡ length self.now }
    {
        self.as_slice().len()
    }

    pub fn is_empty(&self) -> bool
        ensures { IsTrue result ↔ (self.now ≡ []) }
    {
        self.as_slice().is_empty()
    }

    /// The base at an index: None exactly at or past the length.
    pub fn get(&self, index: usize) -> Option<&Base>
        ensures { option_copied result ≡ slice_get self.now index }
    {
        self.as_slice().get(index)
    }

    pub fn as_slice(&self) -> &[Base]
        ensures { result.now ≡ self.now }
    {
        match &self.bases {
            None => &[],
            Some(bases) => bases.as_slice(),
        }
    }
}
