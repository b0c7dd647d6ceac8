//! The files of the folder in which the program runs.
use crate::{Files, hex_of, word};
use anyhow::{Result, bail};
use nv_outside::Shelf;
use std::alloc::Global;

/// The bytes of a file: `./NAME` is one of the folder, and any other one is the table's.
///
/// # Errors
/// Where it is not there.
pub fn file_of<H: Shelf>(
    alloc: Global,
    files: &Files,
    folder: &mut H,
    name: &str,
) -> Result<Vec<u8>> {
    match name.strip_prefix("./") {
        Some(name) => contents(alloc, folder, name),
        None => files.get(alloc, name),
    }
}

/// What a file of the folder holds.
///
/// # Errors
/// Where it is not there.
pub fn contents<H: Shelf>(alloc: Global, folder: &mut H, name: &str) -> Result<Vec<u8>> {
    match folder.load(alloc, name) {
        Ok(Some(bytes)) => Ok(bytes),
        _ => bail!("{name} is not there"),
    }
}

/// What loading a file of the folder comes to, where a text is stored there before, if there is one: `folder NAME TEXT`.
pub fn folder_row<H: Shelf>(
    alloc: Global,
    text: &mut String,
    folder: &mut H,
    row: &str,
) -> Result<()> {
    let stored = word(row, 2);
    if !stored.is_empty() && folder.store(word(row, 1), stored.as_bytes()).is_err() {
        bail!("it is not stored");
    }
    push_loaded(alloc, text, folder, word(row, 1))
}

fn push_loaded<H: Shelf>(
    alloc: Global,
    text: &mut String,
    folder: &mut H,
    name: &str,
) -> Result<()> {
    match folder.load(alloc, name) {
        Ok(Some(bytes)) => push_hex(alloc, text, bytes.as_slice())?,
        Ok(None) => text.push_str("no file")?,
        Err(_) => text.push_str("failed")?,
    }
    Ok(())
}

/// Bytes as digits.
pub fn push_hex(alloc: Global, text: &mut String, bytes: &[u8]) -> Result<()> {
    let digits = hex_of(alloc, bytes)?;
    text.push_str(digits.as_str())?;
    Ok(())
}
