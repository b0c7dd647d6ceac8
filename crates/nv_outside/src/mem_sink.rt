ghost use Rattle.std.specs.Prelude.{◌≡◌, ◌≢◌, ◌≤◌, ◌<◌, ◌||◌, ◌&&◌, ◌==◌, ◌++◌, [], not, min, take, IfOk, is_err, length, Ok, Some, if◌then◌else◌};
ghost use Rattle.std.specs.Io.KnownBytes.{WriteAppends};
ghost use Rattle.nv_outside.specs.Faults.{CountsFailure};
ghost use Rattle.nv_outside.specs.MemSink.{MemOutput, taken_of, is_full};
ghost use Rattle.nv_outside.specs.Script.{new_script, next_fails, after_call, after_fault};

use crate::NoMemory;
use crate::calls::Calls;
use crate::failed::Failed;
use crate::sink::Sink;
use std::alloc::Global;
use std::marker::Model;

/// A sink in memory that takes a number of bytes and no more, and some of whose calls fail.
#[derive(Drop)]
pub struct MemSink {
    bytes: Vec<u8>,
    room: usize,
    calls: Calls,
}

impl Model for MemSink {
    ghost use Rattle.std.specs.Prelude.{◌≤◌, length, vec_capacity};
    ghost use Rattle.nv_outside.specs.MemSink.{MemOutput};

    ghost Value = { MemOutput };

    ghost view = { λ s. record { taken = s.bytes.items; room = s.room; calls = s.calls } };

    ghost invariant = { λ s. (length s.bytes.items ≤ s.room) × (s.room ≤ vec_capacity s.bytes) };
}

impl MemSink {
    /// A sink with room for `room` bytes, whose memory is taken here. Its calls with the numbers in `fails`, counted
    /// from 1, fail.
    pub fn new(alloc: Global, room: usize, fails: Vec<u64>) -> Result<MemSink, NoMemory>
        ensures { IfOk result (λ s. s
            ≡ record { taken = []; room = room; calls = new_script fails.items }) }
    {
        let bytes = Vec::with_capacity(alloc, room)?;
        Ok(MemSink {
            bytes,
            room,
            calls: Calls::new(fails),
        })
    }

    /// The bytes taken so far.
    pub fn bytes(&self) -> &[u8]
        ensures { result.now ≡ self.now.taken }
    {
        self.bytes.as_slice()
    }
}

impl Sink for MemSink {
    ghost taken = { λ s. Some s.taken };

    ghost faults = { λ s. s.calls.faults };

    fn write(&mut self, piece: &[u8]) -> Result<usize, Failed>
        ensures bound { IfOk result (λ n. n ≤ length piece.now) }
        ensures bytes { WriteAppends (Some self.old.taken) (Some self.new.taken) result piece.now }
        ensures takes { 0 < length piece.now → result ≢ Ok 0 }
        ensures count { CountsFailure (is_err result) self.old.calls.faults self.new.calls.faults }
        ensures fails { is_err result ≡ (next_fails self.old.calls || is_full self.old piece.now) }
        ensures calls { self.new.calls
            ≡ (if is_full self.old piece.now && not (next_fails self.old.calls)
            then after_fault (after_call self.old.calls) else after_call self.old.calls) }
        ensures whole { IfOk result (λ n. n ≡ taken_of self.old piece.now) }
        ensures room { self.new.room ≡ self.old.room }
    {
        if self.calls.next_fails() {
            return Err(Failed);
        }
        let n = piece.len().min(self.room - self.bytes.len());
        if n == 0 && !piece.is_empty() {
            self.calls.fault();
            return Err(Failed);
        }
        self.bytes.extend_from_slice(&piece[..n]).unwrap();
        Ok(n)
    }
}
