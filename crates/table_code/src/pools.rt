//! Constant pools that are read.
use anyhow::{Result, bail};
use constant_pool::{Entry, read_pool};
use std::alloc::{AllocError, Global};
use std::fmt::Write;
use table_rows::{bytes_of, rest, slot};

/// The slots of a pool that begins at a place, and where it ends: `pool PLACE BYTES`.
pub fn pool_row(alloc: Global, text: &mut String, row: &str) -> Result<()> {
    let bytes = bytes_of(alloc, rest(row, 2))?;
    match read_pool(alloc, bytes.as_slice(), slot(row, 1).into()) {
        Ok((entries, end)) => push_entries(text, entries.as_slice(), end)?,
        Err(error) => bail!("{error:?}"),
    }
    Ok(())
}

fn push_entries(text: &mut String, entries: &[Entry], end: usize) -> Result<(), AllocError> {
    for entry in entries {
        push_entry(text, entry)?;
    }
    write!(text, "ends {end}")
}

/// Shows what is in a slot.
pub fn push_entry(text: &mut String, entry: &Entry) -> Result<(), AllocError> {
    match entry {
        Entry::Utf8(characters) => push_text(text, characters.as_slice()),
        Entry::Integer(number) => write!(text, "int {number}; "),
        Entry::Long(number) => write!(text, "long {number}; "),
        Entry::LongRest => text.push_str("rest; "),
        Entry::ClassName(name) => push_one(text, "class", *name),
        Entry::Text(name) => push_one(text, "string", *name),
        Entry::FieldRef(class, pair) => push_pair(text, "field", *class, *pair),
        Entry::MethodRef(class, pair) => push_pair(text, "method", *class, *pair),
        Entry::NameAnd(name, kind) => push_pair(text, "pair", *name, *kind),
    }
}

fn push_text(text: &mut String, characters: &[u16]) -> Result<(), AllocError> {
    text.push_str("text")?;
    for character in characters {
        write!(text, " {character:X}")?;
    }
    text.push_str("; ")
}

fn push_one(text: &mut String, name: &str, slot: u16) -> Result<(), AllocError> {
    write!(text, "{name} {slot}; ")
}

fn push_pair(text: &mut String, name: &str, one: u16, other: u16) -> Result<(), AllocError> {
    write!(text, "{name} {one} {other}; ")
}
