//! The sections of an object and their checks (System V ABI, "Sections").
ghost use Rattle.std.specs.Prelude.{◌≡◌, ℕ, ◌+◌, ◌*◌, ◌<◌, ◌≤◌, IfErr, IfOk, IsTrue, OnOk, None, length};
ghost use Rattle.std.specs.List.{find};
ghost use Rattle.elf_definition.specs.Header.{header_of};
ghost use Rattle.elf_definition.specs.Sections.{has_sections};
ghost use Rattle.obj_reader.specs.Fault.{IsAnswer};
ghost use Rattle.obj_reader.specs.Objects.{first_misaligned, first_outside, object_section_fault};
ghost use Rattle.obj_reader.specs.Sections as spec;

use crate::fault::refuse_at;
use crate::obj_error::ObjError;
use crate::section::Section;
use crate::start::Start;
use elf_definition::ObjFault;
use elf_reader::ElfHeader;
use std::alloc::{AllocError, Global};

/// Reads the section header table, which lies in the file where there is one, with the checks of the sections.
#[tactic(auto, unfolding(crate::specs::Objects::object_section_fault))]
pub fn read_sections(
    alloc: Global,
    start: Start,
    b: &[u8],
    header: ElfHeader,
) -> Result<Vec<Section>, ObjError>
    requires read { header ≡ header_of b.now }
    requires there { IsTrue (has_sections header)
        → header.e_shoff + 40 * header.e_shnum ≤ length b.now }
    ensures refused { IfErr result (IsAnswer (object_section_fault start b.now)) }
    ensures passed { OnOk result (object_section_fault start b.now ≡ None) }
    ensures sections { IfOk result (λ sections. sections.items ≡ spec.sections_of start b.now) }
    ensures inside { IfOk result (λ sections.
        find (spec.is_section_outside (length b.now) sections.items) sections.items ≡ None) }
    ensures few { IfOk result (λ sections. length sections.items < 65536) }
{
    let sections = section_headers(alloc, start, b, header)?;
    let outside = first_outside(sections.as_slice(), b.len());
    refuse_at(start.object, ObjFault::SECTION_OUTSIDE, outside)?;
    let misaligned = first_misaligned(sections.as_slice());
    refuse_at(start.object, ObjFault::ALIGNMENT, misaligned)?;
    Ok(sections)
}

/// Reads the entries of the section header table.
#[tactic(auto, unfolding(crate::specs::Sections::sections_of))]
fn section_headers(
    alloc: Global,
    start: Start,
    b: &[u8],
    header: ElfHeader,
) -> Result<Vec<Section>, AllocError>
    requires read { header ≡ header_of b.now }
    requires there { IsTrue (has_sections header)
        → header.e_shoff + 40 * header.e_shnum ≤ length b.now }
    ensures sections { IfOk result (λ sections. sections.items ≡ spec.sections_of start b.now) }
    ensures few { IfOk result (λ sections. length sections.items < 65536) }
{
    let mut sections = Vec::new(alloc);
    if !header.has_sections() {
        return Ok(sections);
    }
    for i in 0..header.e_shnum {
        sections.push(Section::read(start, b, header, i))?;
    }
    Ok(sections)
}

/// The number of the first section that is read and runs past the end of a file of this length.
fn first_outside(sections: &[Section], len: usize) -> Option<u32>
    ensures { result ≡ first_outside len sections.now }
{
    let symbols = symbol_table(sections);
    let strings = string_table(sections);
    sections
        .iter()
        .find(|s| {
            (s.is_placed() && s.has_bytes()
                || is_section(symbols, s)
                || is_section(strings, s)
                || s.is_relocations() && is_for_placed(sections, s))
                && (len as u64) < s.end()
        })
        .map(|s| s.number)
}

/// The number of the first section that gets a place and has a wrong alignment.
fn first_misaligned(sections: &[Section]) -> Option<u32>
    ensures { result ≡ first_misaligned sections.now }
{
    sections
        .iter()
        .find(|s| s.is_misaligned())
        .map(|s| s.number)
}

/// The symbol table, the first one.
pub fn symbol_table(sections: &[Section]) -> Option<Section>
    ensures { result ≡ spec.symbol_table sections.now }
{
    sections.iter().copied().find(|s| s.is_symbol_table())
}

/// The string table of the symbol table.
pub fn string_table(sections: &[Section]) -> Option<Section>
    ensures { result ≡ spec.string_table sections.now }
{
    let table = symbol_table(sections)?;
    strings_of_table(sections, &table)
}

/// The string table of a symbol table.
pub fn strings_of_table(sections: &[Section], table: &Section) -> Option<Section>
    ensures { result ≡ spec.strings_of_table sections.now table.now }
{
    let strings = *sections.get(table.sh_link as usize)?;
    strings.is_string_table().then_some(strings)
}

/// Whether a section of relocations is for a section that gets a place.
pub fn is_for_placed(sections: &[Section], s: &Section) -> bool
    ensures { result ≡ spec.is_for_placed sections.now s.now }
{
    match sections.get(s.sh_info as usize) {
        Some(target) => target.is_placed(),
        None => false,
    }
}

/// Whether a section is the one of this number, if there is one.
fn is_section(table: Option<Section>, s: &Section) -> bool
    ensures { result ≡ spec.is_section table s.now }
{
    match table {
        Some(table) => table.number == s.number,
        None => false,
    }
}
