//! The rows of the table.
use crate::disk_blocks::disk_row;
use crate::given_files::{arguments_row, disk_file_row};
use crate::session::Session;
use crate::std_streams::std_row;
use anyhow::{Result, bail};
use std::alloc::Global;
use table_rows::{Answers, Files, rest, word};

/// What answers them. A row `system` begins a system, of which the rows below it ask; each other row is alone.
#[derive(Drop)]
pub struct Rows {
    session: Option<Session>,
}

impl Rows {
    /// Before the first row.
    pub fn new() -> Rows {
        Rows { session: None }
    }

    fn begin(&mut self, alloc: Global, text: &mut String, row: &str) -> Result<()> {
        self.session = Some(Session::new(alloc, row)?);
        text.push_str("begun")?;
        Ok(())
    }

    fn push_asked(&mut self, alloc: Global, text: &mut String, row: &str) -> Result<()> {
        match &mut self.session {
            Some(session) => session.push_answer(alloc, text, row),
            None => bail!("no such row"),
        }
    }

    fn push(&mut self, alloc: Global, text: &mut String, row: &str) -> Result<()> {
        match word(row, 0) {
            "std" => std_row(alloc, text, row),
            "file" => disk_file_row(alloc, text, row),
            "arguments" => arguments_row(alloc, text, rest(row, 1)),
            "disk" => disk_row(alloc, text, row),
            "system" => self.begin(alloc, text, row),
            _ => self.push_asked(alloc, text, row),
        }
    }
}

impl Answers for Rows {
    fn answer(&mut self, alloc: Global, _files: &Files, row: &str) -> Result<String> {
        let mut text = String::new(alloc);
        self.push(alloc, &mut text, row)?;
        Ok(text)
    }
}
