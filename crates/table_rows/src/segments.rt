//! Programs as ELF files, by their segments and sections.
use crate::hexadecimal::bytes_of;
use crate::row::{address, count, rest, word};
use anyhow::{Result, bail};
use elf_writer::{Part, Parts, Sec, is_writable, write_elf};
use std::alloc::Global;

/// Where every program begins.
const ENTRY: u32 = 0x0040_0000;

/// The permissions of code: to read and to execute.
const CODE: u32 = 5;

/// What lines say of a program that begins at 00400000: `segment ADDRESS MEMORY FLAGS BYTES`, `segments COUNT STRIDE ADDRESS MEMORY
/// FLAGS BYTES` and `section TYPE FLAGS ADDRESS SIZE`. Addresses are hexadecimal, and so are strides and bytes.
///
/// # Errors
/// Where a line is none of these.
pub fn parts_of(alloc: Global, lines: &str) -> Result<Parts> {
    let mut parts = Parts {
        entry: ENTRY,
        segments: Vec::new(alloc),
        sections: Vec::new(alloc),
    };
    for line in lines.split('\n') {
        push_line(alloc, &mut parts, line)?;
    }
    Ok(parts)
}

fn push_line(alloc: Global, parts: &mut Parts, line: &str) -> Result<()> {
    match word(line, 0) {
        "" => Ok(()),
        "segment" => push_segment(alloc, &mut parts.segments, 0, rest(line, 1)),
        "segments" => {
            for number in 0..count(line, 1) {
                let before = address(line, 2).wrapping_mul(number);
                push_segment(alloc, &mut parts.segments, before, rest(line, 3))?;
            }
            Ok(())
        }
        "section" => push_section(&mut parts.sections, rest(line, 1)),
        _ => bail!("a segment or a section is wanted"),
    }
}

fn push_segment(alloc: Global, segments: &mut Vec<Part>, before: u32, line: &str) -> Result<()> {
    segments.push(Part {
        vaddr: address(line, 0).wrapping_add(before),
        mem: count(line, 1),
        flags: count(line, 2),
        bytes: bytes_of(alloc, rest(line, 3))?,
    })?;
    Ok(())
}

fn push_section(sections: &mut Vec<Sec>, line: &str) -> Result<()> {
    sections.push(Sec {
        kind: count(line, 0),
        flags: count(line, 1),
        addr: address(line, 2),
        size: count(line, 3),
    })?;
    Ok(())
}

/// The file of a program of these segments and sections.
///
/// # Errors
/// Where there is no segment, or too much for a file.
pub fn file_of(alloc: Global, parts: &Parts) -> Result<Vec<u8>> {
    if !is_writable(parts) {
        bail!("there are too few or too many parts");
    }
    Ok(write_elf(alloc, parts)?)
}

/// The file of a program of this code.
///
/// # Errors
/// Where it is too long for a file.
pub fn program_of(alloc: Global, code: Vec<u8>) -> Result<Vec<u8>> {
    let text = Part {
        vaddr: ENTRY,
        mem: u32::try_from(code.len()).unwrap_or(0),
        flags: CODE,
        bytes: code,
    };
    let parts = Parts {
        entry: ENTRY,
        segments: vec![in alloc; text]?,
        sections: Vec::new(alloc),
    };
    file_of(alloc, &parts)
}
