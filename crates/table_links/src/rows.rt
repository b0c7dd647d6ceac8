//! The rows of the table.
use crate::linking::objects_row;
use anyhow::{Result, bail};
use nv_outside::Shelf;
use std::alloc::Global;
use table_rows::{Answers, Files, word};

/// What answers them, beside the folder in which objects lie. Each row is alone.
#[derive(Drop)]
pub struct Rows<H> {
    folder: H,
}

impl<H: Shelf> Rows<H> {
    /// Over this folder.
    pub fn new(folder: H) -> Rows<H> {
        Rows { folder }
    }

    fn push_answer(&mut self, alloc: Global, text: &mut String, row: &str) -> Result<()> {
        match word(row, 0) {
            "objects" => objects_row(alloc, text, &mut self.folder, row),
            _ => bail!("no such row"),
        }
    }
}

impl<H: Shelf> Answers for Rows<H> {
    fn answer(&mut self, alloc: Global, _files: &Files, row: &str) -> Result<String> {
        let mut text = String::new(alloc);
        self.push_answer(alloc, &mut text, row)?;
        Ok(text)
    }
}
