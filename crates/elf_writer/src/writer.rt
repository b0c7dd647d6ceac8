ghost use Rattle.std.specs.Prelude.{◌≡◌, ◌≤◌, ◌++◌, IfOk, OnOk, length, replicate, vec_len};
ghost use Rattle.elf_definition.specs.File.{elf_file, section_table};
ghost use Rattle.elf_writer.specs.Limits.{IsWritable};
ghost use Rattle.elf_definition.specs.FilePlaces.{contents_end, contents_place, file_length, segments_end, header_count, table_place};

use crate::fields::append_padding;
use crate::place::{contents_end_of, contents_place_of, next_aligned};
use crate::tables::{
    append_contents, append_elf_header, append_program_headers, append_section_headers,
};
use elf_definition::{Part, Parts, Sec};
use std::alloc::{AllocError, Global};

/// There was no memory for the file.
pub type NoMemory = AllocError;

/// The length of a section header.
const SECTION_HEADER: usize = 40;

/// Writes an executable ELF32 file for big-endian MIPS (System V ABI, "Object Files").
///
/// There are 1 to 65,534 segments and at most 65,534 sections, and the written file has at most 67,108,864 bytes, which
/// [`is_writable`](crate::is_writable) tests. The file has the header, a program header for each segment, each segment's bytes at the next multiple of 4 with zeros between, and, where
/// there are sections, at the next multiple of 4 the section header table: a header of zeros and one for each section.
/// `e_shnum` counts them all. `sh_offset` is where the byte at the section's address is, in the first segment whose file
/// part holds it, else 0; to find it takes a look at each segment for each section. The addresses and sizes themselves
/// are not checked.
///
/// # Errors
/// `NoMemory` where there is no memory for the file.
pub fn write_elf(alloc: Global, parts: &Parts) -> Result<Vec<u8>, NoMemory>
    requires { IsWritable parts.now }
    ensures bytes { IfOk result (λ file. file.items ≡ elf_file parts.now) }
    ensures length { IfOk result (λ file. length file.items ≡ file_length parts.now) }
{
    let segments = parts.segments.as_slice();
    let sections = parts.sections.as_slice();
    let start = contents_place_of(segments);
    let end = contents_end_of(start, segments);
    let mut file = Vec::new(alloc);
    append_elf_header(
        &mut file,
        parts.entry,
        table_place_of(end, sections),
        segments.len() as u16,
        header_count_of(sections),
    )?;
    append_program_headers(&mut file, start, segments)?;
    append_contents(&mut file, start, segments)?;
    append_section_table(&mut file, end, segments, sections)?;
    Ok(file)
}

/// The place of the section header table in a file whose segments end at `end`, 0 where it has none.
fn table_place_of(end: u32, sections: &[Sec]) -> u32
    requires { end ≤ 67108864 }
    ensures { result ≡ table_place end sections.now }
{
    match sections {
        [] => 0,
        [_, ..] => next_aligned(end),
    }
}

/// The number of section headers.
fn header_count_of(sections: &[Sec]) -> u16
    requires { length sections.now ≤ 65534 }
    ensures { result ≡ header_count sections.now }
{
    match sections {
        [] => 0,
        [_, ..] => 1 + sections.len() as u16,
    }
}

/// Appends the section header table, if there are sections, to a file whose segments end at `end`.
fn append_section_table(
    file: &mut Vec<u8>,
    end: u32,
    segments: &[Part],
    sections: &[Sec],
) -> Result<(), NoMemory>
    requires few { length segments.now ≤ 65534 }
    requires within { end ≤ 67108864 }
    requires short { contents_end (contents_place segments.now) segments.now ≤ 67108864 }
    ensures { OnOk result (file.new.items ≡ file.old.items
        ++ section_table end segments.now sections.now) }
{
    match sections {
        [] => Ok(()),
        [_, ..] => {
            append_padding(file, end)?;
            file.extend_from_slice(&[0; SECTION_HEADER])?;
            append_section_headers(file, contents_place_of(segments), segments, sections)
        }
    }
}
