//! The file of a program.
ghost use Rattle.std.specs.Prelude.{◌≡◌, ◌≤◌, ◌<◌, ◌^◌, ◌++◌, ◌∷◌, [], IfOk, OnOk, length, map};
ghost use Rattle.elf_definition.specs.Parts.{part_segment};
ghost use Rattle.elf_writer.specs.Limits.{IsWritable};
ghost use Rattle.obj_linker.specs.Layout.{text_start};
ghost use Rattle.obj_linker.specs.Program as spec;

use crate::image::{front_of, rest_of};
use crate::layout::{DATA_START, Ends, TEXT_START};
use elf_definition::abi::{PF_R, PF_W, PF_X, SHF_ALLOC, SHF_EXECINSTR, SHT_PROGBITS};
use elf_writer::{Part, Parts, Sec, write_elf};
use std::alloc::{AllocError, Global};

/// Flags of the text: to read and to execute (`p_flags`).
const TEXT_FLAGS: u32 = PF_R + PF_X;
/// Flags of the data: to read and to write (`p_flags`).
const DATA_FLAGS: u32 = PF_R + PF_W;
/// The code has memory, and is code (`sh_flags`).
const CODE_FLAGS: u32 = SHF_ALLOC + SHF_EXECINSTR;

/// The file of a program, whose image is the text and after it the data.
///
/// # Errors
/// Where there is no memory for it.
pub fn write_program(
    alloc: Global,
    entry: u32,
    image: &[u8],
    ends: &Ends,
) -> Result<Vec<u8>, AllocError>
    requires short { length image.now ≤ 33554432 }
    requires code { text_start ≤ ends.now.code }
    requires text { text_start ≤ ends.now.text }
    ensures { IfOk result (λ file. spec.IsLinkedFile entry image.now ends.now.code ends.now.text
        ends.now.zeros file.items) }
{
    let parts = program_parts(alloc, entry, image, ends)?;
    write_elf(alloc, &parts)
}

fn program_parts(alloc: Global, entry: u32, image: &[u8], ends: &Ends) -> Result<Parts, AllocError>
    requires short { length image.now ≤ 33554432 }
    requires code { text_start ≤ ends.now.code }
    requires text { text_start ≤ ends.now.text }
    ensures parts { IfOk result
        (spec.IsLinkedParts entry image.now ends.now.code ends.now.text ends.now.zeros) }
    ensures writable { IfOk result IsWritable }
{
    let mut segments = Vec::new(alloc);
    segments.push(text_part(alloc, image, ends)?)?;
    push_data(alloc, &mut segments, image, ends)?;
    let mut sections = Vec::new(alloc);
    sections.push(Sec {
        kind: SHT_PROGBITS,
        flags: CODE_FLAGS,
        addr: TEXT_START,
        size: ends.code - TEXT_START,
    })?;
    Ok(Parts {
        entry,
        segments,
        sections,
    })
}

/// The text: the first bytes of the image.
fn text_part(alloc: Global, image: &[u8], ends: &Ends) -> Result<Part, AllocError>
    requires { text_start ≤ ends.now.text }
    ensures { IfOk result (λ part.
        part_segment part ≡ spec.text_segment image.now ends.now.text) }
{
    let size = ends.text - TEXT_START;
    Ok(Part {
        vaddr: TEXT_START,
        mem: size,
        flags: TEXT_FLAGS,
        bytes: Vec::from_slice(alloc, front_of(image, size as usize))?,
    })
}

/// Appends the data, if there is any memory.
fn push_data(
    alloc: Global,
    segments: &mut Vec<Part>,
    image: &[u8],
    ends: &Ends,
) -> Result<(), AllocError>
    requires { text_start ≤ ends.now.text }
    ensures { OnOk result (map part_segment segments.new.items
        ≡ map part_segment segments.old.items
        ++ spec.linked_data image.now ends.now.text ends.now.zeros) }
{
    if ends.zeros <= DATA_START {
        return Ok(());
    }
    let text = (ends.text - TEXT_START) as usize;
    segments.push(Part {
        vaddr: DATA_START,
        mem: ends.zeros - DATA_START,
        flags: DATA_FLAGS,
        bytes: Vec::from_slice(alloc, rest_of(image, text))?,
    })?;
    Ok(())
}
