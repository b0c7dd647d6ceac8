ghost use Rattle.std.specs.Prelude.{[], Some};

use nv_outside::{Failed, Source};

/// A source that has nothing, and never fails.
#[derive(Drop)]
pub struct NoInput;

impl Source for NoInput {
    ghost rest = { λ _. Some [] };

    ghost faults = { λ _. 0 };

    fn read(&mut self, _buf: &mut [u8]) -> Result<usize, Failed> {
        Ok(0)
    }
}
