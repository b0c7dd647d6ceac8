ghost use Rattle.std.specs.Prelude.{◌≡◌, [], Some};

use nv_outside::{Failed, Sink};
use std::alloc::Global;

/// What a stage wrote to error output.
#[derive(Drop)]
pub(crate) struct Errors {
    pub(crate) bytes: Vec<u8>,
    /// How often there was no memory for a write.
    pub(crate) faults: u64,
}

impl Errors {
    pub(crate) fn new(alloc: Global) -> Errors
        ensures bytes { result.bytes.items ≡ [] }
        ensures faults { result.faults ≡ 0 }
    {
        Errors {
            bytes: Vec::new(alloc),
            faults: 0,
        }
    }
}

impl Sink for Errors {
    ghost taken = { λ e. Some e.bytes.items };

    ghost faults = { λ e. e.faults };

    fn write(&mut self, piece: &[u8]) -> Result<usize, Failed> {
        match self.bytes.extend_from_slice(piece) {
            Ok(()) => Ok(piece.len()),
            Err(_) => {
                self.faults = self.faults.saturating_add(1);
                Err(Failed)
            }
        }
    }
}
