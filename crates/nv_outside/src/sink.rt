ghost use Rattle.std.specs.Prelude.{◌≡◌, ◌≢◌, ◌≤◌, ◌<◌, ℕ, List, Option, IfOk, OnOk, OnErr, Ok, is_err, length};
ghost use Rattle.std.specs.Io.KnownBytes.{Appends, WriteAppends};
ghost use Rattle.nv_outside.specs.Faults.{CountsFailure};
ghost use Rattle.nv_outside.specs.Gains.{AppendsProperPart};

use crate::failed::Failed;

/// Where a program writes bytes.
pub trait Sink {
    /// The bytes taken so far, where the sink tells them.
    ghost taken: { Self → Option (List ℕ) };

    /// How often a write failed.
    ghost faults: { Self → ℕ };

    /// Takes some bytes from the front of `piece`, and answers how many.
    ///
    /// A sink that takes nothing of a piece that is not empty has failed. A write that fails takes nothing.
    fn write(&mut self, piece: &[u8]) -> Result<usize, Failed>
        ensures bound { IfOk result (λ n. n ≤ length piece.now) }
        ensures bytes { WriteAppends (taken self.old) (taken self.new) result piece.now }
        ensures takes { 0 < length piece.now → result ≢ Ok 0 }
        ensures count { CountsFailure (is_err result) (faults self.old) (faults self.new) };
}

/// Writes all of `bytes`: what the sink leaves of them is written again, until it is taken.
///
/// After a failure the sink has taken a front part of them, but not all.
pub fn write_all<K: Sink>(sink: &mut K, bytes: &[u8]) -> Result<(), Failed>
    ensures ok { OnOk result (Appends (K.taken sink.old) (K.taken sink.new) bytes.now) }
    ensures err { OnErr result (AppendsProperPart (K.taken sink.old) (K.taken sink.new) bytes.now) }
    ensures count { CountsFailure (is_err result) (K.faults sink.old) (K.faults sink.new) }
{
    let mut rest = bytes;
    while !rest.is_empty() {
        let n = sink.write(rest)?;
        let (_, others) = rest.split_at(n);
        rest = others;
    }
    Ok(())
}
