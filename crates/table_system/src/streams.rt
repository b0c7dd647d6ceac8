//! The input and the outputs of a system.
use crate::session::letters;
use anyhow::Result;
use nv_outside::{MemSink, MemSource};
use std::alloc::{AllocError, Global};
use table_rows::{count, long_count, word};

/// An input, and two outputs.
#[derive(Drop)]
pub struct Streams {
    pub source: MemSource,
    pub out: MemSink,
    pub err: MemSink,
}

impl Streams {
    /// Those of a row `system BLOCKS MOMENT FAILS ROOM INPUT ARGUMENTS`.
    pub fn of_row(alloc: Global, row: &str) -> Result<Streams> {
        let fails = long_count(row, 3);
        Ok(Streams {
            source: source_of(alloc, word(row, 5), fails)?,
            out: sink_of(alloc, count(row, 4), fails)?,
            err: sink_of(alloc, 16, 0)?,
        })
    }
}

fn source_of(alloc: Global, input: &str, fails: u64) -> Result<MemSource, AllocError> {
    let input = letters(input).replace(alloc, "\\n", "\n")?;
    let bytes = input.as_bytes().to_vec(alloc)?;
    Ok(MemSource::new(bytes, [fails].to_vec(alloc)?))
}

fn sink_of(alloc: Global, room: u32, fails: u64) -> Result<MemSink, AllocError> {
    let fails = [fails].to_vec(alloc)?;
    MemSink::new(alloc, room as usize, fails)
}
