//! Streams over std.
use anyhow::Result;
use nv_outside::{Failed, Sink, Source, StdSink, StdSource};
use std::alloc::{AllocError, Global};
use std::fmt::Write;
use table_rows::{hex_of, word};

/// A read of two bytes over a reader of std, and two writes to a writer of std with room for two: `BYTES TEXT TEXT`.
pub fn std_row(alloc: Global, text: &mut String, row: &str) -> Result<()> {
    push_std_read(alloc, text, word(row, 1))?;
    push_std_writes(text, word(row, 2), word(row, 3))?;
    Ok(())
}

fn push_std_read(alloc: Global, text: &mut String, bytes: &str) -> Result<()> {
    let mut source = StdSource::new(bytes.as_bytes());
    let mut buffer = [0u8; 3];
    let count = source.read(&mut buffer[..2]);
    push_got(alloc, text, count, &buffer)
}

fn push_std_writes(text: &mut String, first: &str, second: &str) -> Result<(), AllocError> {
    let mut room = [0u8; 2];
    let mut sink = StdSink::new(room.as_mut_slice());
    text.push_str("; ")?;
    push_written(text, sink.write(first.as_bytes()))?;
    text.push_str("; ")?;
    push_written(text, sink.write(second.as_bytes()))
}

/// What a read came to, and the bytes of its buffer then.
pub fn push_got(
    alloc: Global,
    text: &mut String,
    count: Result<usize, Failed>,
    buffer: &[u8],
) -> Result<()> {
    match count {
        Ok(count) => {
            let digits = hex_of(alloc, buffer)?;
            write!(text, "{count} {digits}")?
        }
        Err(Failed) => text.push_str("failed")?,
    }
    Ok(())
}

/// What a write came to.
pub fn push_written(text: &mut String, count: Result<usize, Failed>) -> Result<(), AllocError> {
    match count {
        Ok(count) => write!(text, "{count}"),
        Err(Failed) => text.push_str("failed"),
    }
}
