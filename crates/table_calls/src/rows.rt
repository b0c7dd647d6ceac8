//! The rows of the table.
use crate::alike::push_alike;
use crate::calls::{call, push_call, push_next, push_status};
use crate::translations::translations_row;
use anyhow::Result;
use nested_cli::Done;
use nv_outside::Shelf;
use std::alloc::{AllocError, Global};
use std::fmt::Write;
use table_rows::{Answers, Files, Outside, folder_row, rest, word, words_row};

/// What answers them: what is around each call, beside what its row says, and the folder in which files lie.
#[derive(Drop)]
pub struct Rows<H> {
    beside: String,
    folder: H,
}

impl<H: Shelf> Rows<H> {
    /// Nothing around a call.
    pub fn new(alloc: Global, folder: H) -> Rows<H> {
        Rows {
            beside: String::new(alloc),
            folder,
        }
    }

    fn push_answer(
        &mut self,
        alloc: Global,
        text: &mut String,
        files: &Files,
        row: &str,
    ) -> Result<()> {
        match word(row, 0) {
            "beside" => Ok(self.set(alloc, text, rest(row, 1))?),
            "command" => words_row(alloc, text, rest(row, 1)),
            "status" => Ok(status_row(text, row)?),
            "translations" => translations_row(alloc, text, files, row),
            "folder" => folder_row(alloc, text, &mut self.folder, row),
            _ => self.push_calls(alloc, text, files, row),
        }
    }

    fn set(&mut self, alloc: Global, text: &mut String, words: &str) -> Result<(), AllocError> {
        self.beside = String::from_str(alloc, words)?;
        text.push_str("set")
    }

    fn push_calls(
        &mut self,
        alloc: Global,
        text: &mut String,
        files: &Files,
        row: &str,
    ) -> Result<()> {
        let around = around(alloc, row, self.beside.as_str())?;
        let (folder, around) = (&mut self.folder, around.as_str());
        match word(row, 0) {
            "alike" => alike_row(alloc, text, files, folder, word(row, 1), around),
            "then" => then_row(alloc, text, files, folder, word(row, 1), around),
            "over" => over_row(alloc, text, files, folder, word(row, 1), around),
            words => call_row(alloc, text, files, folder, words, around),
        }
    }
}

impl<H: Shelf> Answers for Rows<H> {
    fn answer(&mut self, alloc: Global, files: &Files, row: &str) -> Result<String> {
        let mut text = String::new(alloc);
        self.push_answer(alloc, &mut text, files, row)?;
        Ok(text)
    }
}

/// What is around the calls of a row: what it says itself, and what is beside it.
fn around(alloc: Global, row: &str, beside: &str) -> Result<String, AllocError> {
    let own = match word(row, 0) {
        "alike" | "then" | "over" => rest(row, 2),
        _ => rest(row, 1),
    };
    format!(in alloc; "{own} {beside}")
}

/// One call.
fn call_row<H: Shelf>(
    alloc: Global,
    text: &mut String,
    files: &Files,
    folder: &mut H,
    words: &str,
    around: &str,
) -> Result<()> {
    let mut outside = Outside::new(alloc, files, folder, around)?;
    push_call(alloc, text, &mut outside, words)
}

/// Calls over the same outside each, with `/` between them.
fn alike_row<H: Shelf>(
    alloc: Global,
    text: &mut String,
    files: &Files,
    folder: &mut H,
    calls: &str,
    around: &str,
) -> Result<()> {
    let mut dones = Vec::new(alloc);
    for words in calls.split('/') {
        let mut outside = Outside::new(alloc, files, folder, around)?;
        dones.push(call(alloc, &mut outside, words)?)?;
    }
    push_alike(text, dones.as_slice())?;
    Ok(())
}

/// Calls over one shelf, one after the other, with `/` between them; `keep:NAME,NAME` leaves these files alone.
fn then_row<H: Shelf>(
    alloc: Global,
    text: &mut String,
    files: &Files,
    folder: &mut H,
    calls: &str,
    around: &str,
) -> Result<()> {
    let mut outside = Outside::new(alloc, files, folder, around)?;
    for words in calls.split('/') {
        push_next(alloc, text, &mut outside, words)?;
    }
    Ok(())
}

/// Calls over one outside, one after the other: the statuses of their answers, and what they printed.
fn over_row<H: Shelf>(
    alloc: Global,
    text: &mut String,
    files: &Files,
    folder: &mut H,
    calls: &str,
    around: &str,
) -> Result<()> {
    let mut outside = Outside::new(alloc, files, folder, around)?;
    for words in calls.split('/') {
        push_status(alloc, text, &mut outside, words)?;
    }
    outside.push_streams(text)?;
    Ok(())
}

/// The status of an answer: `status ANSWER NUMBER`.
fn status_row(text: &mut String, row: &str) -> Result<(), AllocError> {
    let status = done_of(row).status();
    write!(text, "{status}")
}

fn done_of(row: &str) -> Done {
    match word(row, 1) {
        "exited" => Done::Exited(word(row, 2).parse().unwrap_or(0)),
        "memory" => Done::NoMemory,
        _ => Done::Good,
    }
}
