//! The section header table and its checks (System V ABI, "Sections").
ghost use Rattle.std.specs.Prelude.{◌≡◌, ℕ, ◌+◌, ◌*◌, ◌<◌, ◌≤◌, length, map, filter, position, not, ◌&&◌, IfOk, IfNone, IfSome, IsTrue};
ghost use Rattle.elf_definition.specs.Header.{header_of};
ghost use Rattle.elf_definition.specs.Sections.{has_sections, section_headers, section_table_fault, section_fault, is_code, is_code_outside, is_code_unaligned};
ghost use Rattle.elf_definition.specs.Segments.{is_executable};
ghost use Rattle.elf_reader.specs.Spans.{are_within, AreRising, text_span};
ghost use Rattle.elf_definition.specs.declared.section_header.SectionHeader.{SectionHeader};

use crate::fault::{fault_at, fault_when};
use crate::headers::section_header_at;
use crate::reach::{are_within, rising};
use crate::span::Span;
use elf_definition::{ElfFault, ElfHeader, SectionHeader, Segment};
use std::alloc::{AllocError, Global};

/// The first of the checks of where the section header table is.
#[tactic(auto, unfolding(elf_definition::specs::Sections::section_table_fault))]
pub fn check_section_table(b: &[u8], header: ElfHeader) -> Option<ElfFault>
    requires { header ≡ header_of b.now }
    ensures first { result ≡ section_table_fault b.now }
    ensures has_table { IfNone result (IsTrue (has_sections header) →
        header.e_shoff + 40 * header.e_shnum ≤ length b.now) }
{
    if !header.has_sections() {
        return None;
    }
    if header.e_shentsize != 40 {
        return fault_when(ElfFault::BAD_SECTION_HEADER_SIZE, true);
    }
    let is_outside = header.is_section_table_outside(b);
    fault_when(ElfFault::SECTION_TABLE_OUTSIDE, is_outside)
}

/// Reads the section header table, which lies in the file where there is one.
#[tactic(auto, unfolding(elf_definition::specs::Sections::section_headers))]
pub fn read_section_headers(
    alloc: Global,
    b: &[u8],
    header: ElfHeader,
) -> Result<Vec<SectionHeader>, AllocError>
    requires read { header ≡ header_of b.now }
    requires there { IsTrue (has_sections header)
        → header.e_shoff + 40 * header.e_shnum ≤ length b.now }
    ensures read { IfOk result (λ sections. sections.items ≡ section_headers b.now) }
    ensures few { IfOk result (λ sections. length sections.items < 65536) }
{
    let mut sections = Vec::new(alloc);
    if !header.has_sections() {
        return Ok(sections);
    }
    for i in 0..header.e_shnum {
        sections.push(section_header_at(b, header, i))?;
    }
    Ok(sections)
}

/// The first code section that lies in none of the rising spans.
fn first_code_outside(sections: &[SectionHeader], texts: &[Span]) -> Option<usize>
    requires { AreRising texts.now }
    ensures first { result ≡ position (λ (s : SectionHeader). is_code s
        && not (are_within s.sh_addr (s.sh_addr + s.sh_size) texts.now)) sections.now }
    ensures bound { IfSome result (λ i. i < length sections.now) }
{
    sections.iter().position(|s| s.is_code() && !are_within(texts, u64::from(s.sh_addr), s.end()))
}

/// The first code section that begins at no multiple of 4.
fn first_code_unaligned(sections: &[SectionHeader]) -> Option<usize>
    ensures first { result ≡ position is_code_unaligned sections.now }
    ensures bound { IfSome result (λ i. i < length sections.now) }
{
    sections.iter().position(|s| s.is_code_unaligned())
}

/// The bytes in the file of the executable segments.
fn executable_spans(alloc: Global, segments: &[Segment]) -> Result<Vec<Span>, AllocError>
    ensures { IfOk result (λ v. v.items ≡ map text_span (filter is_executable segments.now)) }
{
    segments
        .iter()
        .filter(|s| s.is_executable())
        .map(|s| Span {
            first: u64::from(s.vaddr),
            end: s.file_end(),
        })
        .collect(alloc)
}

/// The first of the checks of the section headers, beside the live segments.
///
/// Each code section is looked up among the sorted segments, so the time is that of sorting and searching.
#[tactic(auto, unfolding(elf_definition::specs::Sections::section_fault))]
pub fn check_sections(
    alloc: Global,
    segments: &[Segment],
    sections: &[SectionHeader],
) -> Result<Option<ElfFault>, AllocError>
    requires { length sections.now < 65536 }
    ensures { IfOk result (λ fault. fault ≡ section_fault segments.now sections.now) }
{
    let outside = outside_of(alloc, segments, sections)?;
    if let Some(fault) = fault_at(ElfFault::CODE_OUTSIDE, outside) {
        return Ok(Some(fault));
    }
    let unaligned = first_code_unaligned(sections);
    Ok(fault_at(ElfFault::CODE_UNALIGNED, unaligned))
}

/// The first code section that lies within the bytes in the file of no executable segment.
fn outside_of(
    alloc: Global,
    segments: &[Segment],
    sections: &[SectionHeader],
) -> Result<Option<usize>, AllocError>
    ensures first { IfOk result (λ place. place
        ≡ position (is_code_outside segments.now) sections.now) }
    ensures bound { IfOk result (λ place. IfSome place (λ i. i < length sections.now)) }
{
    let texts = rising(alloc, executable_spans(alloc, segments)?)?;
    Ok(first_code_outside(sections, texts.as_slice()))
}
