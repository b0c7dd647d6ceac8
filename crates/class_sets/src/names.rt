ghost use Rattle.std.specs.Prelude.{◌≡◌, ◌++◌, ◌∷◌, [], IfOk, OnOk, None, string_bytes};
ghost use Rattle.nv_outside.specs.Faults.{CountsFailure, shelf_failed};
ghost use Rattle.nv_outside.specs.Files.{SameFiles};
ghost use Rattle.class_names.specs.Kept.{IsClass};
ghost use Rattle.class_definition.specs.PoolChecks.{pool_entry_fault};
ghost use Rattle.class_sets.specs.ClassSets.{asked_in, names_asked};
ghost use Rattle.class_sets.specs.Waiting.{fresh, AreAsked, GivesFile, IsOnce, last_of};

use crate::asked::{asked_name, plain_text};
use crate::reading::load_file;
use constant_pool::Entry;
use indexmap::IndexSet;
use jvm_code::Class;
use nv_outside::{Shelf, ShelfError};
use std::alloc::{AllocError, Global};
use std::marker::Model;

/// The names of classes in the order in which they were named first, each once: those that were asked for, and after
/// them those that wait.
#[derive(Drop)]
pub struct Names {
    names: IndexSet<String>,
    asked: usize,
}

impl Model for Names {
    ghost use Rattle.std.specs.Prelude.{◌≤◌, length};
    ghost use Rattle.class_sets.specs.Waiting.{Queue, texts, queue, IsOnce};

    ghost Value = { Queue };

    ghost view = { λ n. queue n.asked (texts n.names.keys) };

    ghost invariant = { λ n. (n.asked ≤ length n.names.keys)
        × IsOnce (queue n.asked (texts n.names.keys)) };
}

impl Names {
    /// One name, which waits.
    pub fn new(alloc: Global, name: &str) -> Result<Names, AllocError>
        ensures asked { IfOk result (λ names. names.asked ≡ []) }
        ensures waiting { IfOk result (λ names. names.waiting ≡ name.now ∷ []) }
    {
        let mut names = IndexSet::new(alloc);
        names.insert(String::from_str(alloc, name)?)?;
        Ok(Names { names, asked: 0 })
    }

    /// The bytes of the file of the first waiting name that has one; None where none has. The names up to it are asked for.
    pub fn next_file<H: Shelf>(
        &mut self,
        alloc: Global,
        shelf: &mut H,
    ) -> Result<Option<Vec<u8>>, ShelfError>
        ensures found { IfOk result (λ found.
            GivesFile (H.files shelf.old) self.old found self.new) }
        ensures once { IsOnce self.new }
        ensures same { SameFiles (H.files shelf.old) (H.files shelf.new) }
        ensures count { CountsFailure (shelf_failed result) (H.faults shelf.old)
            (H.faults shelf.new) }
    {
        while self.asked < self.names.len() {
            let name = self.names[self.asked].as_str();
            let found = load_file(alloc, shelf, name)?;
            self.asked += 1;
            if found.is_some() {
                return Ok(found);
            }
        }
        Ok(None)
    }

    /// The last name that was asked for: after [`next_file`](Names::next_file) found a file, that by which it was found. It is empty
    /// where none was asked for.
    pub fn last_asked(&self) -> &str
        ensures { result.now ≡ last_of self.now.asked }
    {
        match self.asked.checked_sub(1) {
            Some(last) => self.names[last].as_str(),
            None => "",
        }
    }

    /// Puts the names that a class asks for after the others, if they are not there.
    pub fn add(&mut self, alloc: Global, class: &Class) -> Result<(), AllocError>
        requires { IsClass class.now }
        ensures asked { OnOk result (self.new.asked ≡ self.old.asked) }
        ensures waiting { OnOk result (self.new.waiting ≡ self.old.waiting
            ++ fresh (self.old.asked ++ self.old.waiting) (names_asked class.now)) }
    {
        let pool = class.pool.as_slice();
        let mut seen = IndexSet::new(alloc);
        for entry in pool {
            self.add_entry(alloc, pool, &mut seen, entry)?;
        }
        Ok(())
    }

    // Puts the name that an entry asks for behind the others, unless an entry of a text in one of these slots asked for it.
    fn add_entry(
        &mut self,
        alloc: Global,
        pool: &[Entry],
        seen: &mut IndexSet<u16>,
        entry: &Entry,
    ) -> Result<(), AllocError>
        requires sound { pool_entry_fault pool.now entry.now ≡ None }
        requires seen { AreAsked pool.now seen.old.keys self.old }
        ensures seen { OnOk result (AreAsked pool.now seen.new.keys self.new) }
        ensures asked { OnOk result (self.new.asked ≡ self.old.asked) }
        ensures waiting { OnOk result (self.new.waiting ≡ self.old.waiting
            ++ fresh (self.old.asked ++ self.old.waiting) (asked_in pool.now entry.now)) }
    {
        let Entry::ClassName(slot) = entry else {
            return Ok(());
        };
        if !seen.insert(*slot)? {
            return Ok(());
        }
        match asked_name(pool, *slot) {
            Some(name) => self.insert(plain_text(alloc, name)?),
            None => Ok(()),
        }
    }

    // Puts a name behind the others, where it is not there.
    fn insert(&mut self, name: String) -> Result<(), AllocError>
        ensures asked { OnOk result (self.new.asked ≡ self.old.asked) }
        ensures waiting { OnOk result (self.new.waiting ≡ self.old.waiting
            ++ fresh (self.old.asked ++ self.old.waiting) (string_bytes name ∷ [])) }
    {
        self.names.insert(name)?;
        Ok(())
    }
}
