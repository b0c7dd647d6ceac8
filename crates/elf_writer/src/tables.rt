//! The header, the tables of headers and the segments' bytes.
ghost use Rattle.std.specs.Prelude.{◌≡◌, ◌≤◌, ◌++◌, OnOk, length, replicate};
ghost use Rattle.elf_definition.specs.File.{elf_header, program_header_bytes, program_header_table, contents, section_header_bytes, section_header_table};
ghost use Rattle.elf_definition.specs.FilePlaces.{contents_end, contents_place};

use crate::fields::{append_halves, append_padding, append_words};
use crate::place::{file_offset_of, next_aligned, part_end_of};
use crate::writer::NoMemory;
use elf_definition::abi::{ELFCLASS32, ELFDATA2MSB, EM_MIPS, ET_EXEC, EV_CURRENT, PT_LOAD};
use elf_definition::{Part, Sec};

/// `e_ident` of a 32-bit big-endian file of the current version.
const IDENTIFICATION: [u8; 16] = [
    0x7F,
    b'E',
    b'L',
    b'F',
    ELFCLASS32,
    ELFDATA2MSB,
    EV_CURRENT,
    0,
    0,
    0,
    0,
    0,
    0,
    0,
    0,
    0,
];

/// Appends the ELF header of an executable for MIPS.
pub fn append_elf_header(
    file: &mut Vec<u8>,
    entry: u32,
    table: u32,
    segments: u16,
    headers: u16,
) -> Result<(), NoMemory>
    ensures { OnOk result (file.new.items ≡ file.old.items
        ++ elf_header entry table segments headers) }
{
    file.extend_from_slice(&IDENTIFICATION)?;
    append_halves(file, &[ET_EXEC, EM_MIPS])?;
    append_words(file, &[EV_CURRENT as u32, entry, 52, table, 0])?;
    append_halves(file, &[52, 32, segments, 40, headers, 0])
}

/// Appends the program headers of segments whose bytes are from `start` on.
#[tactic(auto, using(crate::proofs::PlaceLemmas::le_contents_end))]
pub fn append_program_headers(
    file: &mut Vec<u8>,
    start: u32,
    segments: &[Part],
) -> Result<(), NoMemory>
    requires { contents_end start segments.now ≤ 67108864 }
    ensures { OnOk result (file.new.items ≡ file.old.items ++ program_header_table start segments.now) }
{
    let mut at = start;
    let mut rest = segments;
    while let Some((part, others)) = rest.split_first() {
        append_program_header(file, next_aligned(at), part)?;
        at = part_end_of(at, part);
        rest = others;
    }
    Ok(())
}

fn append_program_header(file: &mut Vec<u8>, offset: u32, part: &Part) -> Result<(), NoMemory>
    requires { length part.now.bytes.items ≤ 67108864 }
    ensures { OnOk result (file.new.items ≡ file.old.items ++ program_header_bytes offset part.now) }
{
    let length = part.bytes.len() as u32;
    append_words(
        file,
        &[
            PT_LOAD, offset, part.vaddr, part.vaddr, length, part.mem, part.flags, 4,
        ],
    )
}

/// Appends the segments' bytes to a file that ends at `start`, each part's at the next multiple of 4.
#[tactic(auto, using(crate::proofs::PlaceLemmas::le_contents_end))]
pub fn append_contents(file: &mut Vec<u8>, start: u32, segments: &[Part]) -> Result<(), NoMemory>
    requires { contents_end start segments.now ≤ 67108864 }
    ensures { OnOk result (file.new.items ≡ file.old.items ++ contents start segments.now) }
{
    let mut at = start;
    let mut rest = segments;
    while let Some((part, others)) = rest.split_first() {
        append_padding(file, at)?;
        file.extend_from_slice(&part.bytes)?;
        at = part_end_of(at, part);
        rest = others;
    }
    Ok(())
}

/// Appends the headers of the sections of a file with these segments, whose bytes are from `start` on.
pub fn append_section_headers(
    file: &mut Vec<u8>,
    start: u32,
    segments: &[Part],
    sections: &[Sec],
) -> Result<(), NoMemory>
    requires { contents_end start segments.now ≤ 67108864 }
    ensures { OnOk result (file.new.items ≡ file.old.items
        ++ section_header_table start segments.now sections.now) }
{
    let mut rest = sections;
    while let Some((section, others)) = rest.split_first() {
        let offset = file_offset_of(start, segments, section.addr);
        append_section_header(file, offset, section)?;
        rest = others;
    }
    Ok(())
}

fn append_section_header(file: &mut Vec<u8>, offset: u32, section: &Sec) -> Result<(), NoMemory>
    ensures { OnOk result (file.new.items ≡ file.old.items ++ section_header_bytes offset section.now) }
{
    let (kind, flags, addr, size) = (section.kind, section.flags, section.addr, section.size);
    append_words(file, &[0, kind, flags, addr, offset, size, 0, 0, 4, 0])
}
