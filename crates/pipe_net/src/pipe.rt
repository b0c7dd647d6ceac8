ghost use Rattle.std.specs.Prelude.{◌≡◌, ◌+◌, ◌≤◌, ◌<◌, ◌^◌, [], ◌++◌, Some, IfOk, OnOk, length};
ghost use Rattle.std.specs.List.{list_any};
ghost use Rattle.unix_pipe_laws.specs.Pipelines.{has_enough, is_newline};

use circular_buffer::HeapCircularBuffer;
use nv_outside::{Failed, Sink, Source};
use std::alloc::{AllocError, Global};

/// The byte at the end of a line.
const NEWLINE: u8 = 0x0A;

/// What waits between two stages: the one writes it, and the other reads it.
#[derive(Drop)]
pub(crate) struct Pipe {
    pub(crate) bytes: HeapCircularBuffer<u8>,
    /// How often there was no memory for a write.
    pub(crate) faults: u64,
}

impl Pipe {
    /// An empty pipe, with room for so many bytes.
    pub(crate) fn new(alloc: Global, room: u32) -> Result<Pipe, AllocError>
        ensures bytes { IfOk result (λ pipe. pipe.bytes.items ≡ []) }
        ensures faults { IfOk result (λ pipe. pipe.faults ≡ 0) }
    {
        Ok(Pipe {
            bytes: HeapCircularBuffer::with_capacity(alloc, room as usize)?,
            faults: 0,
        })
    }

    pub(crate) fn len(&self) -> usize
        ensures { result ≡ length self.now.bytes.items }
    {
        self.bytes.len()
    }

    /// Whether so many bytes, or a line's end, are in these bytes and after them in the pipe.
    pub(crate) fn has_enough(&self, ahead: &[u8], most: u32) -> bool
        ensures { result ≡ has_enough most (ahead.now ++ self.now.bytes.items) }
    {
        let (front, back) = self.bytes.as_slices();
        ahead.len() + self.bytes.len() >= most as usize
            || has_newline(ahead)
            || has_newline(front)
            || has_newline(back)
    }

    /// Makes room for so many bytes more.
    fn make_room(&mut self, count: usize) -> Result<(), AllocError>
        requires { count < 2 ^ 63 }
        ensures room { OnOk result
            (length self.old.bytes.items + count ≤ self.new.bytes.capacity) }
        ensures same_bytes { self.new.bytes.items ≡ self.old.bytes.items }
        ensures same_faults { self.new.faults ≡ self.old.faults }
    {
        let needed = self.bytes.len() + count;
        let capacity = self.bytes.capacity();
        if needed > capacity {
            self.bytes.resize(needed.max(2 * capacity))?;
        }
        Ok(())
    }
}

/// Whether a line ends in these bytes.
fn has_newline(bytes: &[u8]) -> bool
    ensures { result ≡ list_any is_newline bytes.now }
{
    bytes.iter().any(|b| *b == NEWLINE)
}

/// The stage after reads it. A read does not fail.
impl Source for Pipe {
    ghost rest = { λ pipe. Some pipe.bytes.items };

    ghost faults = { λ pipe. 0 };

    fn read(&mut self, buf: &mut [u8]) -> Result<usize, Failed> {
        Ok(self.bytes.read_into(buf))
    }
}

/// The stage before it writes it. A write fails where there is no memory.
impl Sink for Pipe {
    ghost taken = { λ pipe. Some pipe.bytes.items };

    ghost faults = { λ pipe. pipe.faults };

    fn write(&mut self, piece: &[u8]) -> Result<usize, Failed> {
        match self.make_room(piece.len()) {
            Ok(()) => Ok(self.bytes.fill_from_slice(piece)),
            Err(_) => {
                self.faults = self.faults.saturating_add(1);
                Err(Failed)
            }
        }
    }
}
