ghost use Rattle.std.specs.Prelude.{◌≡◌, ◌≤◌, min, take, drop, IfOk, is_err, length, Some, if◌then◌else◌};
ghost use Rattle.std.specs.Io.KnownBytes.{ReadConsumes};
ghost use Rattle.nv_outside.specs.Faults.{CountsFailure};
ghost use Rattle.nv_outside.specs.Script.{new_script, next_fails, after_call};

use crate::calls::Calls;
use crate::failed::Failed;
use crate::source::Source;
use std::marker::Model;

/// A source over bytes in memory, some of whose calls fail.
#[derive(Drop)]
pub struct MemSource {
    bytes: Vec<u8>,
    place: usize,
    calls: Calls,
}

impl Model for MemSource {
    ghost use Rattle.std.specs.Prelude.{◌≤◌, drop, length};
    ghost use Rattle.nv_outside.specs.MemSource.{MemInput};

    ghost Value = { MemInput };

    ghost view = { λ s. record { rest = drop s.place s.bytes.items; calls = s.calls } };

    ghost invariant = { λ s. s.place ≤ length s.bytes.items };
}

impl MemSource {
    /// A source of `bytes`, whose calls with the numbers in `fails`, counted from 1, fail.
    pub fn new(bytes: Vec<u8>, fails: Vec<u64>) -> MemSource
        ensures { result ≡ record { rest = bytes.items; calls = new_script fails.items } }
    {
        MemSource {
            bytes,
            place: 0,
            calls: Calls::new(fails),
        }
    }
}

impl Source for MemSource {
    ghost rest = { λ s. Some s.rest };

    ghost faults = { λ s. s.calls.faults };

    fn read(&mut self, buf: &mut [u8]) -> Result<usize, Failed>
        ensures bound { IfOk result (λ n. n ≤ length buf.new) }
        ensures bytes { ReadConsumes (Some self.old.rest) (Some self.new.rest) result buf.new }
        ensures count { CountsFailure (is_err result) self.old.calls.faults self.new.calls.faults }
        ensures fails { is_err result ≡ next_fails self.old.calls }
        ensures calls { self.new.calls ≡ after_call self.old.calls }
        ensures whole { IfOk result (λ n. n ≡ min (length buf.new) (length self.old.rest)) }
    {
        if self.calls.next_fails() {
            return Err(Failed);
        }
        let (_, rest) = self.bytes.split_at(self.place);
        let n = copy_front(rest, buf);
        self.place += n;
        Ok(n)
    }
}

/// Copies as many bytes as both have to the front of `to`, and answers how many.
fn copy_front(from: &[u8], to: &mut [u8]) -> usize
    ensures count { result ≡ min (length to.old) (length from.now) }
    ensures front { take result to.new ≡ take result from.now }
{
    let n = from.len().min(to.len());
    to[..n].copy_from_slice(&from[..n]);
    n
}
