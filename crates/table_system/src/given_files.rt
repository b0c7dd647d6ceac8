//! Files and arguments that a system is given.
ghost use Rattle.std.specs.Prelude.{◌≤◌, length};

use anyhow::{Result, ensure};
use std::alloc::{AllocError, Global};
use std::fmt::Write;
use table_rows::{bytes_of, count, repeated, word};
use unix_calls::{Unix, UnixError};

/// A file on a disk of so many blocks, and whether it is found by its name: `file BLOCKS NAME BYTES NAME`.
pub fn disk_file_row(alloc: Global, text: &mut String, row: &str) -> Result<()> {
    let (blocks, name) = (count(row, 1), word(row, 2));
    ensure!(
        blocks <= 65_536 && name.len() <= 255,
        "no lawful disk or name"
    );
    let bytes = bytes_of(alloc, word(row, 3))?;
    push_disk_file(alloc, text, blocks, name, bytes.as_slice(), word(row, 4))?;
    Ok(())
}

fn push_disk_file(
    alloc: Global,
    text: &mut String,
    blocks: u32,
    name: &str,
    bytes: &[u8],
    other: &str,
) -> Result<(), AllocError>
    requires blocks { blocks ≤ 65536 }
    requires short { length name.now ≤ 255 }
{
    let mut unix = Unix::new(alloc, blocks, 0)?;
    push_added(text, unix.add_file(name.as_bytes(), bytes))?;
    push_found(alloc, text, &unix, name, bytes)?;
    push_found(alloc, text, &unix, other, bytes)
}

fn push_found(
    alloc: Global,
    text: &mut String,
    unix: &Unix,
    name: &str,
    bytes: &[u8],
) -> Result<(), AllocError> {
    match unix.file(alloc, name.as_bytes())? {
        Some(found) => {
            let (length, same) = (found.len(), found.as_slice() == bytes);
            write!(text, "{length} bytes, the same {same}; ")
        }
        None => text.push_str("none; "),
    }
}

fn push_added(text: &mut String, added: Result<(), UnixError>) -> Result<(), AllocError> {
    match added {
        Ok(()) => text.push_str("added; "),
        Err(UnixError::FilesTooLarge(blocks)) => write!(text, "too large: {blocks} blocks; "),
        Err(UnixError::ArgsTooLong(bytes)) => write!(text, "too long: {bytes} bytes; "),
        Err(_) => text.push_str("no memory; "),
    }
}

/// Arguments, one after the other; one such as `4078*a` stands for so many letters.
pub fn arguments_row(alloc: Global, text: &mut String, texts: &str) -> Result<()> {
    let mut unix = Unix::new(alloc, 0, 0)?;
    for argument in texts.split_whitespace() {
        let argument = repeated(alloc, argument)?;
        push_added(text, give(&mut unix, argument.as_str()))?;
    }
    Ok(())
}

/// Gives an argument.
pub fn give(unix: &mut Unix, argument: &str) -> Result<(), UnixError> {
    unix.add_arg(argument)
}
