ghost use Rattle.std.specs.Prelude.{◌≡◌, IfOk};

use std::alloc::{AllocError, Global};
use std::marker::Model;

/// A value on the heap, so that what holds it is small. It is a `Box` that contracts see as the value.
#[derive(Drop)]
pub struct Kept<T> {
    value: Box<T, Global>,
}

impl<T> Model for Kept<T> {
    ghost Value = { T };

    ghost view = { λ k. k.value.value };
}

impl<T: Drop> Kept<T> {
    /// Puts a value on the heap.
    pub fn new(alloc: Global, value: T) -> Result<Kept<T>, AllocError>
        ensures { IfOk result (λ kept. kept ≡ value) }
    {
        let value = Box::new(alloc, value)?;
        Ok(Kept { value })
    }

    /// The value, to be read.
    pub fn get(&self) -> &T
        ensures { result.now ≡ self.now }
    {
        &self.value
    }
}
