//! Assembly texts.
use anyhow::{Context, Result, ensure};
use mips_asm::assemble;
use nv_words::word_at;
use std::alloc::{AllocError, Global};
use std::fmt::Write;
use table_rows::{Files, count, rest};

/// The words of the file of a text: `assemble PLACE COUNT` and then the text, in quotation marks, with `\n`, `\r` and `\t`, or by its name.
pub fn assemble_row(alloc: Global, text: &mut String, files: &Files, row: &str) -> Result<()> {
    let given = text_of(alloc, files, rest(row, 3))?;
    let file = assembled(alloc, given.as_slice())?;
    push_words(text, file.as_slice(), count(row, 1), count(row, 2))
}

fn assembled(alloc: Global, text: &[u8]) -> Result<Vec<u8>> {
    ensure!(text.len() <= 67_108_864, "the text is too long");
    Ok(assemble(alloc, text)?)
}

fn text_of(alloc: Global, files: &Files, text: &str) -> Result<Vec<u8>> {
    match text.strip_prefix('"') {
        Some(quoted) => Ok(unquoted(alloc, quoted)?),
        None => files.get(alloc, text),
    }
}

fn unquoted(alloc: Global, quoted: &str) -> Result<Vec<u8>, AllocError> {
    let quoted = quoted.strip_suffix('"').unwrap_or(quoted);
    let text = quoted.replace(alloc, "\\n", "\n")?;
    let text = text.replace(alloc, "\\r", "\r")?;
    let text = text.replace(alloc, "\\t", "\t")?;
    text.as_bytes().to_vec(alloc)
}

fn push_words(text: &mut String, file: &[u8], place: u32, count: u32) -> Result<()> {
    for k in 0..count {
        let place = place.saturating_add(k.saturating_mul(4)) as usize;
        let word = word_at(file, place).context("the file has no such word")?;
        let before = if k == 0 { "" } else { " " };
        write!(text, "{before}{word:08X}")?;
    }
    Ok(())
}
