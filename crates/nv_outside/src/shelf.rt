ghost use Rattle.std.specs.Prelude.{ℕ, Option, IfOk};
ghost use Rattle.nv_outside.specs.Faults.{CountsFailure, shelf_failed};
ghost use Rattle.nv_outside.specs.Files.{Files, Finds, SameFiles, Stores};

use crate::shelf_error::ShelfError;
use std::alloc::Global;

/// Where a program's files lie, by name.
pub trait Shelf {
    /// The bytes of each name that has a file, where the shelf tells them.
    ghost files: { Self → Option Files };

    /// How often a load or a store failed.
    ghost faults: { Self → ℕ };

    /// The bytes of a file, or None where there is no file of that name. Changes nothing.
    fn load(&mut self, alloc: Global, name: &str) -> Result<Option<Vec<u8>>, ShelfError>
        ensures found { IfOk result (Finds (files self.old) name.now) }
        ensures same { SameFiles (files self.old) (files self.new) }
        ensures count { CountsFailure (shelf_failed result) (faults self.old) (faults self.new) };

    /// Sets a file to these bytes.
    ///
    /// After a failure the file may hold anything; after running out of memory nothing is changed. The other files stay.
    fn store(&mut self, name: &str, bytes: &[u8]) -> Result<(), ShelfError>
        ensures stored { Stores (files self.old) (files self.new) name.now bytes.now result }
        ensures count { CountsFailure (shelf_failed result) (faults self.old) (faults self.new) };
}
