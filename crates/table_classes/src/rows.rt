//! The rows of the table.
use crate::reading::{code_row, framed_row, method_row, read_row, string_row};
use crate::runs::run_row;
use crate::sets::{characters_row, link_row, linked_row, set_row};
use anyhow::{Result, bail};
use std::alloc::Global;
use table_rows::{Answers, Files, rest, word};

/// What answers them. Each row is alone.
#[derive(Clone, Copy)]
pub struct Rows;

impl Answers for Rows {
    fn answer(&mut self, alloc: Global, files: &Files, row: &str) -> Result<String> {
        let mut text = String::new(alloc);
        push_answer(alloc, &mut text, files, row)?;
        Ok(text)
    }
}

fn push_answer(alloc: Global, text: &mut String, files: &Files, row: &str) -> Result<()> {
    match word(row, 0) {
        "read" => read_row(alloc, text, files, word(row, 1)),
        "framed" => framed_row(alloc, text, files, word(row, 1)),
        "method" => method_row(alloc, text, files, word(row, 1)),
        "string" => string_row(alloc, text, files, row),
        "code" => code_row(alloc, text, rest(row, 1)),
        "set" => set_row(alloc, text, files, row),
        "link" => link_row(alloc, text, files, row),
        "linked" => linked_row(alloc, text, files, rest(row, 1)),
        "characters" => characters_row(alloc, text, files, row),
        "run" => run_row(alloc, text, files, row),
        _ => bail!("no such row"),
    }
}
