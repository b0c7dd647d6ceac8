//! The rows of the table.
use crate::emitted::{added_row, assembled_row};
use crate::pools::pool_row;
use crate::spans::cut_row;
use crate::typings::verdict_row;
use anyhow::{Result, bail};
use std::alloc::Global;
use table_rows::{Answers, Files, rest, word};

/// What answers them. Each row is alone.
#[derive(Clone, Copy)]
pub struct Rows;

impl Answers for Rows {
    fn answer(&mut self, alloc: Global, _files: &Files, row: &str) -> Result<String> {
        let mut text = String::new(alloc);
        push_answer(alloc, &mut text, row)?;
        Ok(text)
    }
}

fn push_answer(alloc: Global, text: &mut String, row: &str) -> Result<()> {
    match word(row, 0) {
        "pool" => pool_row(alloc, text, row),
        "verdict" => verdict_row(alloc, text, row),
        "cut" => cut_row(alloc, text, row),
        "added" => added_row(alloc, text, rest(row, 1)),
        "assembled" => assembled_row(alloc, text),
        _ => bail!("no such row"),
    }
}
