//! The bytes of a file, which only clauses read.
ghost use Rattle.std.specs.Prelude.{◌≡◌, ℕ, List};
ghost use Rattle.std.specs.Borrow.{ftrue};

use std::marker::{Model, PhantomData};

/// The bytes of a file as a clause sees them, `bytes`. It takes no memory.
#[derive(Drop)]
pub struct Contents {
    marker: PhantomData<u8>,
    pub ghost bytes: { List ℕ },
}

impl Model for Contents {
    ghost also_owns = { λ _. ftrue };
}

impl Contents {
    /// Those of a file.
    pub fn of(_file: &[u8]) -> Contents
        ensures { result.bytes ≡ _file.now }
    {
        Contents {
            marker: PhantomData,
        }
    }
}
