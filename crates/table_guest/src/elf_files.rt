//! ELF files, read and written.
use anyhow::{Context, Result, ensure};
use elf_reader::{Elf, Range, Segment, read_elf};
use elf_writer::{Parts, is_writable, write_elf};
use mips_asm_laws::laws::read_written;
use std::alloc::{AllocError, Global};
use std::fmt::Write;
use table_rows::{Files, count, hex_of, parts_of, word};

/// A file as it is read.
pub fn file_row(alloc: Global, text: &mut String, files: &Files, name: &str) -> Result<()> {
    let file = files.get(alloc, name)?;
    push_read(alloc, text, file.as_slice())
}

fn push_read(alloc: Global, text: &mut String, file: &[u8]) -> Result<()> {
    push_elf(text, &read_elf(alloc, file)?)?;
    Ok(())
}

/// A file that was read: its segments as `OFFSET+BYTES at ADDRESS+MEMORY:FLAGS`, and its code as `ADDRESS+WORDS`.
fn push_elf(text: &mut String, elf: &Elf<'_>) -> Result<(), AllocError> {
    let (length, entry) = (elf.file.len(), elf.entry);
    write!(text, "{length} bytes, entry {entry:08X}, segments")?;
    for segment in elf.segments.as_slice() {
        push_segment(text, segment)?;
    }
    text.push_str(", code")?;
    push_code(text, elf.code.as_slice())
}

fn push_segment(text: &mut String, it: &Segment) -> Result<(), AllocError> {
    let (offset, filesz, vaddr) = (it.offset, it.filesz, it.vaddr);
    let (memsz, flags) = (it.memsz, it.flags);
    write!(text, " {offset}+{filesz} at {vaddr:08X}+{memsz}:{flags}")
}

fn push_code(text: &mut String, code: &[Range]) -> Result<(), AllocError> {
    for range in code {
        let (first, words) = (range.first, range.words);
        write!(text, " {first:08X}+{words}")?;
    }
    Ok(())
}

/// The length of a file, and so many bytes of it from a place on: `bytes FILE PLACE COUNT`.
pub fn bytes_row(alloc: Global, text: &mut String, files: &Files, row: &str) -> Result<()> {
    let file = files.get(alloc, word(row, 1))?;
    let part = part_of(file.as_slice(), row).context("there are no such bytes")?;
    let digits = hex_of(alloc, part)?;
    let length = file.len();
    write!(text, "{digits} of {length} bytes")?;
    Ok(())
}

fn part_of<'a>(file: &'a [u8], row: &str) -> Option<&'a [u8]> {
    let (place, count) = (count(row, 2), count(row, 3));
    file.get(place as usize..place.saturating_add(count) as usize)
}

/// What the file of a program of a segment holds, as it is read where it was written.
pub fn back_row(alloc: Global, text: &mut String, segment: &str) -> Result<()> {
    push_back(alloc, text, &parts_of(alloc, segment)?)
}

fn push_back(alloc: Global, text: &mut String, parts: &Parts) -> Result<()> {
    ensure!(is_writable(parts), "no file has these parts");
    let file = write_elf(alloc, parts)?;
    push_elf(text, &read_written(alloc, parts, file.as_slice())?)?;
    Ok(())
}
