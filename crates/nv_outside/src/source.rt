ghost use Rattle.std.specs.Prelude.{◌≤◌, ℕ, List, Option, IfOk, is_err, length};
ghost use Rattle.std.specs.Io.KnownBytes.{ReadConsumes};
ghost use Rattle.nv_outside.specs.Faults.{CountsFailure};

use crate::failed::Failed;

/// Where a program reads bytes.
pub trait Source {
    /// The bytes not yet read, where the source tells them.
    ghost rest: { Self → Option (List ℕ) };

    /// How often a read failed.
    ghost faults: { Self → ℕ };

    /// Reads some bytes into the front of `buf`, and answers how many.
    ///
    /// An answer of 0 for a buffer that is not empty is the end of input. A read that fails takes nothing.
    fn read(&mut self, buf: &mut [u8]) -> Result<usize, Failed>
        ensures bound { IfOk result (λ n. n ≤ length buf.new) }
        ensures bytes { ReadConsumes (rest self.old) (rest self.new) result buf.new }
        ensures count { CountsFailure (is_err result) (faults self.old) (faults self.new) };
}
