//! Calls of the program.
use crate::alike::push_done;
use anyhow::Result;
use nested_cli::{Done, nested};
use std::alloc::Global;
use std::fmt::Write;
use table_rows::{Outside, command_line};

/// Calls the program with words, which have `|` between two.
///
/// # Errors
/// Out of memory.
pub fn call(alloc: Global, outside: &mut Outside, words: &str) -> Result<Done> {
    let words = command_line(alloc, words)?;
    let (shelf, input) = (&mut outside.shelf, &mut outside.input);
    let (out, err) = (&mut outside.out, &mut outside.err);
    Ok(nested(alloc, words.as_slice(), 0, shelf, input, out, err))
}

/// Calls the program, and shows its answer, with what output and error output took, the classes that are there, and the bytes of the
/// file `f`.
///
/// # Errors
/// Out of memory.
pub fn push_call(
    alloc: Global,
    text: &mut String,
    outside: &mut Outside,
    words: &str,
) -> Result<()> {
    let done = call(alloc, outside, words)?;
    write!(text, "{done:?}")?;
    outside.push_left(alloc, text)
}

/// Calls the program, and shows its answer; or `keep:NAME,NAME`, which takes all other files away.
///
/// # Errors
/// Out of memory.
pub fn push_next(
    alloc: Global,
    text: &mut String,
    outside: &mut Outside,
    words: &str,
) -> Result<()> {
    match words.strip_prefix("keep:") {
        Some(names) => outside.keep(alloc, names)?,
        None => push_done(text, &call(alloc, outside, words)?)?,
    }
    Ok(())
}

/// Calls the program, and shows the status of its answer.
///
/// # Errors
/// Out of memory.
pub fn push_status(
    alloc: Global,
    text: &mut String,
    outside: &mut Outside,
    words: &str,
) -> Result<()> {
    let status = call(alloc, outside, words)?.status();
    let between = if text.is_empty() { "" } else { " " };
    write!(text, "{between}{status}")?;
    Ok(())
}
