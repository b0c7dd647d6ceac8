ghost use Rattle.std.specs.Prelude.{◌≡◌, ◌≢◌, List, ℕ, IfOk, OnOk, OnErr, Some, None, Err, IsTrue, is_some, option_map, if◌then◌else◌};
ghost use Rattle.nv_outside.specs.Faults.{CountsFailure, shelf_failed};
ghost use Rattle.nv_outside.specs.Files.{Files, Finds, SameFiles, SetsFile, Stores};
ghost use Rattle.nv_outside.specs.MemShelf.{files_in};
ghost use Rattle.nv_outside.specs.Script.{new_script, next_fails, after_call};

use crate::NoMemory;
use crate::calls::Calls;
use crate::shelf::Shelf;
use crate::shelf_error::ShelfError;
use std::alloc::Global;
use std::collections::BTreeMap;

/// A shelf of files in memory, some of whose calls fail. A store that fails changes nothing.
#[derive(Drop)]
pub struct MemShelf {
    alloc: Global,
    files: BTreeMap<String, Vec<u8>>,
    calls: Calls,
}

impl MemShelf {
    /// A shelf without files, whose calls with the numbers in `fails`, counted from 1, fail.
    pub fn new(alloc: Global, fails: Vec<u64>) -> MemShelf
        ensures empty { (name : List ℕ) → files_in result.files name ≡ None }
        ensures calls { result.calls ≡ new_script fails.items }
    {
        MemShelf {
            alloc,
            files: BTreeMap::new(alloc),
            calls: Calls::new(fails),
        }
    }

    /// Sets a file. This is no call of the shelf.
    pub fn add(&mut self, name: &str, bytes: &[u8]) -> Result<(), NoMemory>
        ensures ok { OnOk result
            (SetsFile (Some (files_in self.old.files)) (Some (files_in self.new.files))
            name.now bytes.now) }
        ensures err { OnErr result
            (SameFiles (Some (files_in self.old.files)) (Some (files_in self.new.files))) }
        ensures calls { self.new.calls ≡ self.old.calls }
    {
        let key = String::from_str(self.alloc, name)?;
        let value = Vec::from_slice(self.alloc, bytes)?;
        self.files.insert(key, value)?;
        Ok(())
    }

    /// The bytes of a file.
    pub fn get(&self, name: &str) -> Option<&[u8]>
        ensures { option_map (λ bytes. bytes.now) result ≡ files_in self.now.files name.now }
    {
        self.files.get(name).map(|bytes| bytes.as_slice())
    }
}

impl Shelf for MemShelf {
    ghost files = { λ s. Some (files_in s.files) };

    ghost faults = { λ s. s.calls.faults };

    fn load(&mut self, alloc: Global, name: &str) -> Result<Option<Vec<u8>>, ShelfError>
        ensures found { IfOk result (Finds (Some (files_in self.old.files)) name.now) }
        ensures same { SameFiles (Some (files_in self.old.files)) (Some (files_in self.new.files)) }
        ensures count { CountsFailure (shelf_failed result)
            self.old.calls.faults self.new.calls.faults }
        ensures fails { shelf_failed result ≡ next_fails self.old.calls }
        ensures calls { self.new.calls ≡ after_call self.old.calls }
    {
        if self.calls.next_fails() {
            return Err(ShelfError::Failed);
        }
        match self.files.get(name) {
            None => Ok(None),
            Some(bytes) => match Vec::from_slice(alloc, bytes.as_slice()) {
                Ok(copy) => Ok(Some(copy)),
                Err(_) => Err(ShelfError::NoMemory),
            },
        }
    }

    fn store(&mut self, name: &str, bytes: &[u8]) -> Result<(), ShelfError>
        ensures stored { Stores (Some (files_in self.old.files)) (Some (files_in self.new.files))
            name.now bytes.now result }
        ensures count { CountsFailure (shelf_failed result)
            self.old.calls.faults self.new.calls.faults }
        ensures fails { shelf_failed result ≡ next_fails self.old.calls }
        ensures unchanged { OnErr result
            (SameFiles (Some (files_in self.old.files)) (Some (files_in self.new.files))) }
        ensures calls { self.new.calls ≡ after_call self.old.calls }
    {
        if self.calls.next_fails() {
            return Err(ShelfError::Failed);
        }
        match self.add(name, bytes) {
            Ok(()) => Ok(()),
            Err(_) => Err(ShelfError::NoMemory),
        }
    }
}
