ghost use Rattle.std.specs.Prelude.{None};

use nv_outside::{Failed, Sink};

/// A sink that takes all and keeps nothing, and never fails.
#[derive(Drop)]
pub struct NoOutput;

impl Sink for NoOutput {
    ghost taken = { λ _. None };

    ghost faults = { λ _. 0 };

    fn write(&mut self, piece: &[u8]) -> Result<usize, Failed> {
        Ok(piece.len())
    }
}
