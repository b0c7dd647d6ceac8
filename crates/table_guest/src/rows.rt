//! The rows of the table.
use crate::assembly::assemble_row;
use crate::blocks::{blocks_row, part_row, target_row, units_row};
use crate::elf_files::{back_row, bytes_row, file_row};
use crate::images::image_row;
use crate::machines::run_row;
use crate::numbers::{field_row, put_row, signs_row};
use crate::texts::{inst_row, places_row};
use anyhow::{Result, bail};
use nv_words::Order;
use std::alloc::Global;
use table_rows::{Answers, Files, address, count, rest, word};

/// What answers them. Each row is alone.
#[derive(Clone, Copy)]
pub struct Rows;

impl Answers for Rows {
    fn answer(&mut self, alloc: Global, files: &Files, row: &str) -> Result<String> {
        let mut text = String::new(alloc);
        push_of_files(alloc, &mut text, files, row)?;
        Ok(text)
    }
}

fn push_of_files(alloc: Global, text: &mut String, files: &Files, row: &str) -> Result<()> {
    match word(row, 0) {
        "elf" => file_row(alloc, text, files, word(row, 1)),
        "bytes" => bytes_row(alloc, text, files, row),
        "back" => back_row(alloc, text, rest(row, 1)),
        "image" => image_row(alloc, text, files, row),
        "assemble" => assemble_row(alloc, text, files, row),
        "run" => run_row(alloc, text, files, row),
        _ => push_answer(alloc, text, row),
    }
}

fn push_answer(alloc: Global, text: &mut String, row: &str) -> Result<()> {
    match word(row, 0) {
        "inst" => inst_row(alloc, text, address(row, 1), address(row, 2)),
        "places" => Ok(places_row(text, count(row, 1))?),
        "units" => units_row(alloc, text, rest(row, 1)),
        "blocks" => blocks_row(alloc, text, rest(row, 1)),
        "part" => part_row(alloc, text, count(row, 1), count(row, 2), rest(row, 3)),
        "target" => target_row(alloc, text, rest(row, 1)),
        "big" => field_row(alloc, text, Order::Big, row),
        "little" => field_row(alloc, text, Order::Little, row),
        "put" => put_row(alloc, text, row),
        "signed" | "unsigned" => Ok(signs_row(text, row)?),
        _ => bail!("no such row"),
    }
}
