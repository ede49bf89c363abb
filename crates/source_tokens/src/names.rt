//! The names of a source, by the order in which they were met.
ghost use Rattle.std.specs.Prelude.{◌≡◌, IfOk, OnOk, fold};
ghost use Rattle.source_tokens.specs.Names.{first_names, name_id, with_name, with_text};

use fuun_base::NoMemory;
use indexmap::IndexSet;
use std::alloc::Global;
use std::marker::Model;

/// The names that were met, each once.
#[derive(Drop)]
pub(crate) struct Names {
    alloc: Global,
    texts: IndexSet<Vec<u8>>,
}

impl Model for Names {
    ghost use Rattle.std.specs.Prelude.{ℕ, List, map};

    ghost Value = { List (List ℕ) };

    ghost view = { λ names. map (λ text. text.items) names.texts.keys };
}

impl Names {
    /// The reserved names and those of the commands.
    pub(crate) fn new(alloc: Global) -> Result<Self, NoMemory>
        ensures { IfOk result (λ names. names ≡ first_names) }
    {
        let mut names = Names {
            alloc,
            texts: IndexSet::new(alloc),
        };
        names.add_all(&FIRST_NAMES)?;
        Ok(names)
    }

    // Meets names, one after the other.
    fn add_all(&mut self, names: &[&str]) -> Result<(), NoMemory>
        ensures { OnOk result (self.new ≡ fold with_text self.old names.now) }
    {
        'names: for name in names {
            self.id(name.as_bytes())?;
        }
        Ok(())
    }

    /// The place of a name among those that were met, behind which it stands if it is new.
    pub(crate) fn id(&mut self, name: &[u8]) -> Result<u64, NoMemory>
        ensures id { IfOk result (λ id. id ≡ name_id self.old name.now) }
        ensures met { OnOk result (self.new ≡ with_name self.old name.now) }
    {
        let (place, _) = self.texts.insert_full(Vec::from_slice(self.alloc, name)?)?;
        Ok(place as u64)
    }
}

const FIRST_NAMES: [&str; 23] = [
    "data",
    "rest",
    "self",
    "black",
    "red",
    "green",
    "yellow",
    "blue",
    "magenta",
    "cyan",
    "white",
    "transparent",
    "opaque",
    "empty",
    "move",
    "counterclockwise",
    "clockwise",
    "mark",
    "line",
    "fill",
    "layer",
    "compose",
    "clip",
];
