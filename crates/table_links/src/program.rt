//! A program that was linked, as it is read.
use elf_reader::{Elf, ElfError, Segment, read_elf};
use std::alloc::{AllocError, Global};
use std::fmt::Write;

/// Its entry, and of each segment its address, its length in memory, its flags and its bytes.
pub fn push_program(alloc: Global, text: &mut String, file: &[u8]) -> Result<(), AllocError> {
    match read_elf(alloc, file) {
        Ok(elf) => push_elf(alloc, text, &elf),
        Err(ElfError::Refused(fault)) => push_check(text, fault.kind),
        Err(ElfError::NoMemory) => text.push_str("no memory"),
    }
}

fn push_check(text: &mut String, kind: u32) -> Result<(), AllocError> {
    write!(text, "no program, check {kind}")
}

fn push_elf(alloc: Global, text: &mut String, elf: &Elf) -> Result<(), AllocError> {
    let entry = elf.entry;
    write!(text, "entry {entry:x}")?;
    for segment in elf.segments.as_slice() {
        push_segment(alloc, text, segment, bytes_of(elf.file, segment))?;
    }
    Ok(())
}

fn push_segment(
    alloc: Global,
    text: &mut String,
    segment: &Segment,
    bytes: &[u8],
) -> Result<(), AllocError> {
    let digits = hex::encode(alloc, bytes)?;
    let (address, memory, flags) = (segment.vaddr, segment.memsz, segment.flags);
    write!(text, ", {address:x} {memory} {flags} {digits}")
}

/// The bytes of a segment in the file.
fn bytes_of<'a>(file: &'a [u8], segment: &Segment) -> &'a [u8] {
    match file.get(segment.offset as usize..) {
        Some(rest) => rest.get(..segment.filesz as usize).unwrap_or(&[]),
        None => &[],
    }
}
