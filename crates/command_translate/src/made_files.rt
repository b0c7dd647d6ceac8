//! The file of the program.
ghost use Rattle.std.specs.Prelude.{◌≡◌, ◌≤◌, [], IfOk, length};
ghost use Rattle.elf_definition.specs.FileFields.{words};
ghost use Rattle.elf_writer.specs.Limits.{IsWritable};
ghost use Rattle.elf_definition.specs.Parts.{part_segment};
ghost use Rattle.mips_asm.specs.File.{IsFileOf, IsProgram, whole_segment};
ghost use Rattle.command_translate.specs.MadeWords.{made_words};

use crate::made_words::made_text;
use elf_writer::{Part, Parts, write_elf};
use std::alloc::{AllocError, Global};

/// The address of the first block, at which the program starts.
const TEXT: u32 = 0x0040_0000;

/// To be read and executed.
const TEXT_FLAGS: u32 = 5;

/// The ELF file of the program of `count` blocks, at most 65,536.
pub fn made_file(alloc: Global, count: u32) -> Result<Vec<u8>, AllocError>
    requires { count ≤ 65536 }
    ensures { IfOk result (λ file. IsFileOf (words (made_words count)) [] file.items) }
{
    let text = made_text(alloc, count)?;
    let parts = text_alone(alloc, text)?;
    let file = write_elf(alloc, &parts)?;
    Ok(file)
}

/// The parts of a program that is all text.
fn text_alone(alloc: Global, text: Vec<u8>) -> Result<Parts, AllocError>
    requires { length text.items ≤ 4194304 }
    ensures parts { IfOk result (IsProgram text.items []) }
    ensures writable { IfOk result IsWritable }
{
    let mut segments = Vec::new(alloc);
    segments.push(text_part(text))?;
    Ok(Parts {
        entry: TEXT,
        segments,
        sections: Vec::new(alloc),
    })
}

/// The segment of these bytes.
fn text_part(bytes: Vec<u8>) -> Part
    requires { length bytes.items ≤ 4194304 }
    ensures { part_segment result ≡ whole_segment 0x00400000 5 bytes.items }
{
    Part {
        vaddr: TEXT,
        mem: bytes.len() as u32,
        flags: TEXT_FLAGS,
        bytes,
    }
}
