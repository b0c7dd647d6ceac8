ghost use Rattle.std.specs.Prelude.{None};

use nv_outside::{Failed, Sink};

/// Where a stage writes whose reader has ended: it takes all, and keeps nothing.
#[derive(Drop)]
pub(crate) struct Dropped;

impl Sink for Dropped {
    ghost taken = { λ d. None };

    ghost faults = { λ d. 0 };

    fn write(&mut self, piece: &[u8]) -> Result<usize, Failed> {
        Ok(piece.len())
    }
}
