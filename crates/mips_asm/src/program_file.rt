//! The file of a program.
ghost use Rattle.std.specs.Prelude.{◌≡◌, ◌≤◌, [], ◌∷◌, ◌++◌, IfErr, IfOk, OnOk, length, map};
ghost use Rattle.elf_writer.specs.Limits.{IsWritable};
ghost use Rattle.mips_asm.specs.declared.asm_error.AsmError.TheVariants.{NoMemory};
ghost use Rattle.elf_definition.specs.Parts.{part_segment};
ghost use Rattle.mips_asm.specs.File.{IsFileOf, IsProgram, data_segments, whole_segment};

use crate::asm_error::AsmError;
use crate::place::{DATA, TEXT};
use crate::segments::Segments;
use elf_writer::{Part, Parts, write_elf};
use std::alloc::{AllocError, Global};

/// Flags of the text: to read and to execute.
const TEXT_FLAGS: u32 = 5;

/// Flags of the data: to read and to write.
const DATA_FLAGS: u32 = 6;

/// The ELF file of a program with these segments.
///
/// # Errors
/// Where there is no memory for it.
pub fn write_program(alloc: Global, segments: Segments) -> Result<Vec<u8>, AsmError>
    requires short_text { length segments.text.items ≤ 4194304 }
    requires short_data { length segments.data_bytes.items ≤ 16777216 }
    ensures file { IfOk result (λ file.
        IsFileOf segments.text.items segments.data_bytes.items file.items) }
    ensures memory { IfErr result (λ e. e ≡ NoMemory) }
{
    match program_parts(alloc, segments) {
        Err(_) => Err(AsmError::NoMemory),
        Ok(parts) => match write_elf(alloc, &parts) {
            Err(_) => Err(AsmError::NoMemory),
            Ok(file) => Ok(file),
        },
    }
}

fn program_parts(alloc: Global, segments: Segments) -> Result<Parts, AllocError>
    requires short_text { length segments.text.items ≤ 4194304 }
    requires short_data { length segments.data_bytes.items ≤ 16777216 }
    ensures parts { IfOk result (IsProgram segments.text.items segments.data_bytes.items) }
    ensures writable { IfOk result IsWritable }
{
    let mut parts = Vec::new(alloc);
    let Segments { text, data_bytes } = segments;
    parts.push(whole_part(TEXT, TEXT_FLAGS, text))?;
    push_data(&mut parts, data_bytes)?;
    Ok(Parts {
        entry: TEXT,
        segments: parts,
        sections: Vec::new(alloc),
    })
}

/// Appends the data, if there is any.
fn push_data(parts: &mut Vec<Part>, bytes: Vec<u8>) -> Result<(), AllocError>
    requires { length bytes.items ≤ 16777216 }
    ensures { OnOk result (map part_segment parts.new.items ≡ map part_segment parts.old.items
        ++ data_segments bytes.items) }
{
    if bytes.is_empty() {
        return Ok(());
    }
    parts.push(whole_part(DATA, DATA_FLAGS, bytes))?;
    Ok(())
}

/// A segment all of whose bytes are in the file.
fn whole_part(vaddr: u32, flags: u32, bytes: Vec<u8>) -> Part
    requires { length bytes.items ≤ 16777216 }
    ensures { part_segment result ≡ whole_segment vaddr flags bytes.items }
{
    Part {
        vaddr,
        mem: bytes.len() as u32,
        flags,
        bytes,
    }
}
