//! The names of all objects (System V ABI, "Symbol Table").
use crate::name::Name;
use indexmap::IndexMap;
use std::alloc::{AllocError, Global};
use std::marker::Model;

/// What is known of names, by their numbers.
#[derive(Drop)]
pub struct Names {
    known: IndexMap<usize, Name>,
}

impl Model for Names {
    ghost use Rattle.obj_linker.specs.Known.{NameList};

    ghost Value = { NameList };

    ghost view = { λ n. n.known.entries };
}

impl Names {
    ghost use Rattle.std.specs.Prelude.{◌≡◌, ◌==◌, ℕ, [], OnOk, if◌then◌else◌};
    ghost use Rattle.obj_linker.specs.Known.{known_in};

    /// No names.
    pub fn new(alloc: Global) -> Names
        ensures { result ≡ [] }
    {
        Names {
            known: IndexMap::new(alloc),
        }
    }

    /// What is known of a name.
    pub fn get(&self, name: usize) -> Name
        ensures { result ≡ known_in self.now name }
    {
        let known = self.known.get(&name).copied();
        known.unwrap_or(Name::unknown())
    }

    /// Says what is known of a name.
    ///
    /// # Errors
    /// Where there is no memory for one more.
    pub fn set(&mut self, name: usize, known: Name) -> Result<(), AllocError>
        ensures { OnOk result ((other : ℕ) → known_in self.new other
            ≡ (if name == other then known else known_in self.old other)) }
    {
        self.known.insert(name, known)?;
        Ok(())
    }
}
