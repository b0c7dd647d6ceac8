//! Class files, by their slots, members and code.
use crate::hexadecimal::bytes_of;
use crate::row::{rest, word};
use anyhow::{Result, bail};
use std::alloc::{AllocError, Global};

/// The class file that lines make: the first is its name, and then come a slot a line, `text TEXT`, `int HEX`, `long HEX`, `class SLOT`,
/// `pair SLOT SLOT`, `field SLOT SLOT` or `method SLOT SLOT`; `has SLOT SLOT` for a field, `runs SLOT SLOT` for the method in place of
/// `run()V`, and `code BYTES`. Its code has eight operands and four local variables at most.
///
/// Before these slots are 1 its name, 2 the class, 3 `java/lang/Object`, 4 the class, 5 `run`, 6 `()V` and 7 `Code`.
///
/// # Errors
/// Where a line is none of these.
pub fn class_of(alloc: Global, lines: &str) -> Result<Vec<u8>> {
    class_file_of(alloc, lines, line_of(lines, "code", ""))
}

/// The class file of these lines with this code.
///
/// # Errors
/// As `class_of`.
pub fn class_file_of(alloc: Global, lines: &str, code: &str) -> Result<Vec<u8>> {
    let code = bytes_of(alloc, code)?;
    let mut file = Vec::new(alloc);
    push_pool(alloc, &mut file, lines)?;
    push_fields(&mut file, lines)?;
    push_method(&mut file, line_of(lines, "runs", "5 6"), code.as_slice())?;
    Ok(file)
}

/// What the first line of this name says; another text where there is none.
fn line_of<'a>(lines: &'a str, name: &str, other: &'a str) -> &'a str {
    for line in lines.split('\n') {
        if word(line, 0) == name {
            return rest(line, 1);
        }
    }
    other
}

fn push_pool(alloc: Global, file: &mut Vec<u8>, lines: &str) -> Result<()> {
    let (name, slots) = lines.split_once('\n').unwrap_or((lines, ""));
    let mut count = 8u16;
    for line in slots.split('\n') {
        count = count.saturating_add(slots_of(word(line, 0)));
    }
    push_halves(file, &[0xCAFE, 0xBABE, 0, 48, count])?;
    push_head(file, name.trim())?;
    for line in slots.split('\n') {
        push_slot(alloc, file, line)?;
    }
    Ok(())
}

fn push_head(file: &mut Vec<u8>, name: &str) -> Result<()> {
    push_text(file, name)?;
    push_slots(file, 7, "1")?;
    push_text(file, "java/lang/Object")?;
    push_slots(file, 7, "3")?;
    push_text(file, "run")?;
    push_text(file, "()V")?;
    push_text(file, "Code")
}

/// How many slots a line of this name takes.
fn slots_of(name: &str) -> u16 {
    match name {
        "" | "has" | "runs" | "code" => 0,
        "long" => 2,
        _ => 1,
    }
}

fn push_slot(alloc: Global, file: &mut Vec<u8>, line: &str) -> Result<()> {
    let slot = rest(line, 1);
    match word(line, 0) {
        "text" => push_text(file, slot),
        "int" => push_number(alloc, file, 3, slot),
        "long" => push_number(alloc, file, 5, slot),
        "class" => push_slots(file, 7, slot),
        "field" => push_slots(file, 9, slot),
        "method" => push_slots(file, 10, slot),
        "pair" => push_slots(file, 12, slot),
        "" | "has" | "runs" | "code" => Ok(()),
        _ => bail!("a slot, a member or code is wanted"),
    }
}

fn push_text(file: &mut Vec<u8>, text: &str) -> Result<()> {
    let length = u16::try_from(text.len()).unwrap_or(0);
    file.push(1)?;
    push_halves(file, &[length])?;
    file.extend_from_slice(text.as_bytes())?;
    Ok(())
}

fn push_number(alloc: Global, file: &mut Vec<u8>, tag: u8, digits: &str) -> Result<()> {
    let number = bytes_of(alloc, digits)?;
    file.push(tag)?;
    file.extend_from_slice(number.as_slice())?;
    Ok(())
}

fn push_slots(file: &mut Vec<u8>, tag: u8, slots: &str) -> Result<()> {
    file.push(tag)?;
    push_numbers(file, slots)
}

fn push_numbers(file: &mut Vec<u8>, numbers: &str) -> Result<()> {
    for number in numbers.split(' ') {
        push_halves(file, &[number.parse()?])?;
    }
    Ok(())
}

fn push_halves(file: &mut Vec<u8>, halves: &[u16]) -> Result<(), AllocError> {
    for half in halves {
        file.extend_from_slice(&half.to_be_bytes())?;
    }
    Ok(())
}

/// The flags of members: public and static.
const STATIC: u16 = 9;

fn push_fields(file: &mut Vec<u8>, lines: &str) -> Result<()> {
    let mut count = 0u16;
    for line in lines.split('\n') {
        if word(line, 0) == "has" {
            count = count.saturating_add(1);
        }
    }
    push_halves(file, &[0x31, 2, 4, 0, count])?;
    for line in lines.split('\n') {
        if word(line, 0) == "has" {
            push_member(file, rest(line, 1))?;
            push_halves(file, &[0])?;
        }
    }
    Ok(())
}

fn push_member(file: &mut Vec<u8>, slots: &str) -> Result<()> {
    push_halves(file, &[STATIC])?;
    push_numbers(file, slots)
}

fn push_method(file: &mut Vec<u8>, slots: &str, code: &[u8]) -> Result<()> {
    let length = u32::try_from(code.len()).unwrap_or(0);
    push_halves(file, &[1])?;
    push_member(file, slots)?;
    push_halves(file, &[1, 7])?;
    file.extend_from_slice(&length.saturating_add(12).to_be_bytes())?;
    push_halves(file, &[8, 4])?;
    file.extend_from_slice(&length.to_be_bytes())?;
    file.extend_from_slice(code)?;
    push_halves(file, &[0, 0, 0])?;
    Ok(())
}
