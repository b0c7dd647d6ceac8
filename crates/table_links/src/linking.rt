//! Objects that are linked, whole and changed.
use crate::linked::Answer;
use crate::object::object_of;
use crate::program::push_program;
use crate::tally::Tally;
use anyhow::{Result, bail};
use nv_outside::Shelf;
use std::alloc::{AllocError, Global};
use table_rows::{rest, word};

/// Begins the word that names the entry.
const ENTRY: &str = "--entry=";

/// Objects of the folder, and the name of an entry.
#[derive(Drop)]
struct Objects<'a> {
    files: Vec<Vec<u8>>,
    entry: &'a str,
}

/// What comes of linking objects: `objects KIND OBJECT..`, in which `--entry=NAME` may be among the objects. They are linked, and the
/// program's digest is told (`link`) or the program (`show`); or they are linked with each proper front part of the last one in its place,
/// the longest first (`prefixes`), or with each bit of the last one changed (`bits`).
pub fn objects_row<H: Shelf>(
    alloc: Global,
    text: &mut String,
    folder: &mut H,
    row: &str,
) -> Result<()> {
    let objects = Objects::read(alloc, folder, rest(row, 2))?;
    match word(row, 1) {
        "link" => objects.answer(alloc).push_to(alloc, text)?,
        "show" => objects.show(alloc, text)?,
        "prefixes" => objects.prefixes(alloc, text)?,
        "bits" => objects.bits(alloc, text)?,
        _ => bail!("no such kind"),
    }
    Ok(())
}

impl<'a> Objects<'a> {
    fn read<H: Shelf>(alloc: Global, folder: &mut H, words: &'a str) -> Result<Objects<'a>> {
        let mut files = Vec::new(alloc);
        for word in words.split_whitespace() {
            if !word.starts_with(ENTRY) {
                files.push(object_of(alloc, folder, word)?)?;
            }
        }
        Ok(Objects {
            files,
            entry: entry_in(words),
        })
    }

    fn answer(&self, alloc: Global) -> Answer {
        Answer::of(alloc, self.files.as_slice(), self.entry)
    }

    fn show(&self, alloc: Global, text: &mut String) -> Result<(), AllocError> {
        match self.answer(alloc) {
            Answer::Program(file) => push_program(alloc, text, file.as_slice()),
            other => other.push_to(alloc, text),
        }
    }

    fn prefixes(mut self, alloc: Global, text: &mut String) -> Result<(), AllocError> {
        let mut tally = Tally::new();
        for _ in 0..self.last_length() {
            self.shorten();
            tally.add(alloc, &self.answer(alloc))?;
        }
        tally.push_to(alloc, text)
    }

    fn bits(mut self, alloc: Global, text: &mut String) -> Result<(), AllocError> {
        let mut tally = Tally::new();
        for i in 0..self.last_length() {
            for bit in [1, 2, 4, 8, 16, 32, 64, 128] {
                self.turn(i, bit);
                tally.add(alloc, &self.answer(alloc))?;
                self.turn(i, bit);
            }
        }
        tally.push_to(alloc, text)
    }

    fn last_length(&self) -> usize {
        match self.files.last() {
            Some(last) => last.len(),
            None => 0,
        }
    }

    /// Takes the last byte off the last object.
    fn shorten(&mut self) {
        if let Some(last) = self.files.last_mut() {
            let _ = last.pop();
        }
    }

    /// Turns a bit of a byte of the last object.
    fn turn(&mut self, i: usize, bit: u8) {
        if let Some(byte) = self.files.last_mut().and_then(|last| last.get_mut(i)) {
            *byte ^= bit;
        }
    }
}

/// The name after `--entry=` in words, `__start` where none has it.
fn entry_in(words: &str) -> &str {
    for word in words.split(' ') {
        if let Some(name) = word.strip_prefix(ENTRY) {
            return name;
        }
    }
    "__start"
}
