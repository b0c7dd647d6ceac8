ghost use Rattle.std.specs.Prelude.{◌≡◌, ◌≤◌, ◌∷◌, [], List, ℕ, is_err, MatchOption, OnOk, OnErr, ◌==◌, length};
ghost use Rattle.std.specs.Io.KnownBytes.{Consumes, Keeps, IsAtEnd};
ghost use Rattle.nv_outside.specs.Faults.{CountsFailure};
ghost use Rattle.unix_calls.specs.Drawing.{DrawsByte};

use nv_outside::{Failed, Source};
use std::marker::Model;

/// The bytes that were read from a source and not yet given to the program, at most 4,096. A contract sees them as a list.
#[derive(Drop)]
pub struct ReadAhead {
    bytes: [u8; 4096],
    from: usize,
    to: usize,
}

impl Model for ReadAhead {
    ghost use Rattle.std.specs.Prelude.{List, ℕ, take, drop, ◌≤◌};

    ghost Value = { List ℕ };

    ghost view = { λ a. drop a.from (take a.to a.bytes) };

    ghost invariant = { λ a. (a.from ≤ a.to) × (a.to ≤ 4096) };
}

impl ReadAhead {
    pub fn new() -> ReadAhead
        ensures { result ≡ [] }
    {
        ReadAhead {
            bytes: [0; 4096],
            from: 0,
            to: 0,
        }
    }

    /// The next byte of input, which is read where nothing was read ahead. None is the end of input.
    pub fn next<S: Source>(&mut self, source: &mut S) -> Result<Option<u8>, Failed>
        ensures drawn { DrawsByte self.old self.new (S.rest source.old) (S.rest source.new) result }
        ensures count { CountsFailure (is_err result) (S.faults source.old) (S.faults source.new) }
    {
        if self.is_empty() {
            self.fill(source)?;
        }
        Ok(self.first())
    }

    /// There are at most 4,096 bytes. It does nothing.
    pub fn is_short(&self)
        ensures { length self.now ≤ 4096 }
    {
        let _ = &self.from;
    }

    /// The bytes in their order.
    pub fn bytes(&self) -> &[u8]
        ensures { result.now ≡ self.now }
    {
        &self.bytes[self.from..self.to]
    }

    fn is_empty(&self) -> bool
        ensures { result ≡ (length self.now == 0) }
    {
        self.from == self.to
    }

    /// Takes the first byte off.
    fn first(&mut self) -> Option<u8>
        ensures { MatchOption result ((self.old ≡ [])
            × (self.new ≡ [])) (λ b. self.old ≡ b ∷ self.new) }
    {
        if self.from == self.to {
            return None;
        }
        let b = self.bytes[self.from];
        self.from += 1;
        Some(b)
    }

    /// Reads ahead once. Nothing is read at the end of input.
    fn fill<S: Source>(&mut self, source: &mut S) -> Result<(), Failed>
        requires { self.old ≡ [] }
        ensures bytes { OnOk result (Consumes (S.rest source.old) (S.rest source.new) self.new) }
        ensures end { OnOk result (self.new ≡ [] → IsAtEnd (S.rest source.new)) }
        ensures failed { OnErr result (Keeps (S.rest source.old) (S.rest source.new)
            × (self.new ≡ [])) }
        ensures count { CountsFailure (is_err result) (S.faults source.old) (S.faults source.new) }
    {
        self.from = 0;
        self.to = 0;
        self.to = source.read(&mut self.bytes)?;
        Ok(())
    }
}
