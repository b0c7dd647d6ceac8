//! What is around a call.
use crate::folder::{contents, push_hex};
use crate::shelf::shelf_of;
use crate::{Files, repeated};
use anyhow::Result;
use nv_outside::{MemShelf, MemSink, MemSource, Shelf};
use std::alloc::{AllocError, Global};
use std::fmt::Write;
use std::str;

/// Files that commands store, in order.
const STORED: [&str; 3] = ["Main.class", "Main_0.class", "Main_D0.class"];

/// The parts of the outside that a call is given.
#[derive(Drop)]
pub struct Outside {
    /// Its files.
    pub shelf: MemShelf,
    /// Its input.
    pub input: MemSource,
    /// Its output.
    pub out: MemSink,
    /// Its error output.
    pub err: MemSink,
}

impl Outside {
    /// What words say of the outside: `NAME=FILE` for a file, `shelf:N`, `in:N`, `out:N` and `err:N` for failing calls, counted from 1,
    /// `room:N` for the room of output, `typed:TEXT` for input, with `\n` for an end of line, `from:NAME` for input from a file of the
    /// folder, and `chain:N` for classes that name each other. If a word comes twice, the first counts.
    ///
    /// # Errors
    /// Where a word is none of these.
    pub fn new<H: Shelf>(
        alloc: Global,
        files: &Files,
        folder: &mut H,
        words: &str,
    ) -> Result<Outside> {
        Ok(Outside {
            shelf: shelf_of(alloc, files, folder, words)?,
            input: input_of(alloc, folder, words)?,
            out: sink_of(alloc, number(words, "room:", 200), number(words, "out:", 0))?,
            err: sink_of(alloc, 100, number(words, "err:", 0))?,
        })
    }

    /// Takes all files away but these, whose names have commas between them.
    ///
    /// # Errors
    /// Out of memory.
    pub fn keep(&mut self, alloc: Global, names: &str) -> Result<(), AllocError> {
        self.shelf = kept(alloc, &self.shelf, names)?;
        Ok(())
    }

    /// What output and error output took, the classes that are there, and the bytes of the file `f`.
    ///
    /// # Errors
    /// Out of memory.
    pub fn push_left(&self, alloc: Global, text: &mut String) -> Result<()> {
        self.push_streams(text)?;
        self.push_classes(text)?;
        self.push_f(alloc, text)
    }

    /// What output and error output took.
    ///
    /// # Errors
    /// Out of memory.
    pub fn push_streams(&self, text: &mut String) -> Result<(), AllocError> {
        push_taken(text, "out", self.out.bytes())?;
        push_taken(text, "err", self.err.bytes())
    }

    fn push_classes(&self, text: &mut String) -> Result<(), AllocError> {
        for name in STORED {
            if self.shelf.get(name).is_some() {
                write!(text, ", {name}")?;
            }
        }
        Ok(())
    }

    fn push_f(&self, alloc: Global, text: &mut String) -> Result<()> {
        if let Some(bytes) = self.shelf.get("f") {
            text.push_str(", f ")?;
            push_hex(alloc, text, bytes)?;
        }
        Ok(())
    }
}

fn push_taken(text: &mut String, name: &str, bytes: &[u8]) -> Result<(), AllocError> {
    if bytes.is_empty() {
        return Ok(());
    }
    match str::from_utf8(bytes) {
        Ok(taken) => write!(text, ", {name} {taken:?}"),
        Err(_) => write!(text, ", {name} is no text"),
    }
}

/// A shelf with these files of another one alone.
fn kept(alloc: Global, shelf: &MemShelf, names: &str) -> Result<MemShelf, AllocError> {
    let mut other = MemShelf::new(alloc, Vec::new(alloc));
    for name in names.split(',') {
        if let Some(bytes) = shelf.get(name) {
            other.add(name, bytes)?;
        }
    }
    Ok(other)
}

fn input_of<H: Shelf>(alloc: Global, folder: &mut H, words: &str) -> Result<MemSource> {
    let bytes = match said(words, "from:") {
        Some(name) => contents(alloc, folder, name)?,
        None => typed(alloc, said(words, "typed:").unwrap_or(""))?,
    };
    Ok(MemSource::new(bytes, [number(words, "in:", 0)].to_vec(alloc)?))
}

fn typed(alloc: Global, text: &str) -> Result<Vec<u8>, AllocError> {
    let typed = text.replace(alloc, "\\n", "\n")?;
    typed.as_bytes().to_vec(alloc)
}

fn sink_of(alloc: Global, room: u64, fails: u64) -> Result<MemSink, AllocError> {
    let room = usize::try_from(room).unwrap_or(0);
    MemSink::new(alloc, room, [fails].to_vec(alloc)?)
}

/// What the first word with this name says.
fn said<'a>(words: &'a str, name: &str) -> Option<&'a str> {
    for word in words.split(' ') {
        if let Some(text) = word.strip_prefix(name) {
            return Some(text);
        }
    }
    None
}

/// The number that a word with this name says; another one where there is no such word.
pub fn number(words: &str, name: &str, other: u64) -> u64 {
    match said(words, name) {
        Some(digits) => digits.parse().unwrap_or(0),
        None => other,
    }
}

/// The words of a text, with `|` between two; `none` has none.
///
/// # Errors
/// If a word names no count, as `4078*x` does, or if memory runs out.
pub fn command_line(alloc: Global, text: &str) -> Result<Vec<String>> {
    let mut words = Vec::new(alloc);
    if text != "none" {
        for word in text.split('|') {
            words.push(repeated(alloc, word)?)?;
        }
    }
    Ok(words)
}
