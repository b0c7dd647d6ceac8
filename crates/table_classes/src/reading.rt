//! Class files and their code, read and written again.
ghost use Rattle.std.specs.Prelude.{IfOk};
ghost use Rattle.class_names.specs.Kept.{IsClass};

use anyhow::{Context, Result, bail};
use class_reader::{read_class, read_class_51};
use class_writer::write_class;
use constant_pool::{ReadError, text_of};
use jvm_code::{Class, Line, Method, decode_ops, encode_ops};
use std::alloc::{AllocError, Global};
use std::fmt::Write;
use table_rows::{Files, bytes_of, hex_of, rest, slot, word};

/// What a class has, and whether it is written again as it is, with its code.
pub fn read_row(alloc: Global, text: &mut String, files: &Files, name: &str) -> Result<()> {
    let file = files.get(alloc, name)?;
    let class = class_of(alloc, file.as_slice())?;
    push_class(text, &class)?;
    let same = is_again(alloc, &class, file.as_slice())?;
    let code = is_code_again(alloc, class.methods.as_slice())?;
    write!(text, "again {same}, code {code}")?;
    Ok(())
}

fn push_class(text: &mut String, class: &Class) -> Result<(), AllocError> {
    let (this, super_class) = (class.this_class, class.super_class);
    let (slots, fields) = (class.pool.as_slice().len(), class.fields.as_slice().len());
    let methods = class.methods.as_slice().len();
    write!(text, "this {this}, super {super_class}, {slots} slots, ")?;
    write!(text, "{fields} fields, {methods} methods; ")
}

fn is_again(alloc: Global, class: &Class, file: &[u8]) -> Result<bool>
    requires { IsClass class.now }
{
    match write_class(alloc, class) {
        Ok(again) => Ok(again.as_slice() == file),
        Err(error) => bail!("{error:?}"),
    }
}

/// Whether a file is a class of version 51.0, or otherwise the first field at fault.
pub fn framed_row(alloc: Global, text: &mut String, files: &Files, name: &str) -> Result<()> {
    let file = files.get(alloc, name)?;
    push_framed(alloc, text, file.as_slice())?;
    Ok(())
}

fn push_framed(alloc: Global, text: &mut String, file: &[u8]) -> Result<(), AllocError> {
    match read_class_51(alloc, file) {
        Ok(_) => text.push_str("a class"),
        Err(ReadError::Refused(fault)) => push_fault(text, fault.kind, fault.at),
        Err(ReadError::NoMemory) => Err(AllocError),
    }
}

fn push_fault(text: &mut String, kind: u32, at: u32) -> Result<(), AllocError> {
    write!(text, "kind {kind} at {at}")
}

/// A class of a file.
pub fn class_of(alloc: Global, file: &[u8]) -> Result<Class>
    ensures { IfOk result IsClass }
{
    match read_class(alloc, file) {
        Ok(class) => Ok(class),
        Err(error) => bail!("{error:?}"),
    }
}

/// Whether the code of each method is made again of its instructions.
fn is_code_again(alloc: Global, methods: &[Method]) -> Result<bool> {
    let mut same = true;
    for method in methods {
        let again = is_same_again(alloc, method.code.as_slice())?;
        same = same && again;
    }
    Ok(same)
}

fn is_same_again(alloc: Global, code: &[u8]) -> Result<bool> {
    let (_lines, again) = code_again(alloc, code)?;
    Ok(again.as_slice() == code)
}

/// The instructions of code, and the bytes that they are made to again.
fn code_again(alloc: Global, code: &[u8]) -> Result<(Vec<Line>, Vec<u8>)> {
    match decode_ops(alloc, code) {
        Ok(lines) => {
            let again = encode_ops(alloc, lines.as_slice())?;
            Ok((lines, again))
        }
        Err(error) => bail!("{error:?}"),
    }
}

/// The parts of a class's first method.
pub fn method_row(alloc: Global, text: &mut String, files: &Files, name: &str) -> Result<()> {
    let file = files.get(alloc, name)?;
    let class = class_of(alloc, file.as_slice())?;
    let first = class.methods.as_slice().first();
    push_method(alloc, text, first.context("there is no method")?)
}

fn push_method(alloc: Global, text: &mut String, it: &Method) -> Result<()> {
    let (name, desc, attr) = (it.name, it.desc, it.attr);
    write!(text, "slots {name} {desc} {attr}, ")?;
    let (stack, locals) = (it.stack, it.locals);
    let code = hex_of(alloc, it.code.as_slice())?;
    write!(text, "stack {stack}, locals {locals}, code {code}")?;
    Ok(())
}

/// The characters of the text in a slot: `string FILE SLOT`.
pub fn string_row(alloc: Global, text: &mut String, files: &Files, row: &str) -> Result<()> {
    let file = files.get(alloc, word(row, 1))?;
    let class = class_of(alloc, file.as_slice())?;
    let characters = text_of(class.pool.as_slice(), slot(row, 2));
    push_characters(text, characters.context("the slot has no text")?)?;
    Ok(())
}

fn push_characters(text: &mut String, characters: &[u16]) -> Result<(), AllocError> {
    for character in characters {
        write!(text, "{character:X} ")?;
    }
    Ok(())
}

/// The places of instructions, and whether these are the same bytes again.
pub fn code_row(alloc: Global, text: &mut String, pieces: &str) -> Result<()> {
    let code = bytes_of(alloc, pieces)?;
    let (lines, again) = code_again(alloc, code.as_slice())?;
    push_places(text, lines.as_slice())?;
    let same = again.as_slice() == code.as_slice();
    write!(text, "again {same}")?;
    Ok(())
}

fn push_places(text: &mut String, lines: &[Line]) -> Result<(), AllocError> {
    for line in lines {
        let at = line.at;
        write!(text, "{at} ")?;
    }
    Ok(())
}
