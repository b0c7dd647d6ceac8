ghost use Rattle.std.specs.Prelude.{true, ℕ, AllPairs, ◌≡◌, [], ◌∷◌, ◌+◌, ◌*◌, ◌≤◌, All, length, IfOk, IfErr, OnOk};
ghost use Rattle.elf_definition.specs.Area.{area, code_ranges, ranges_of, area_fault, has_address, range_end, is_in_text};
ghost use Rattle.elf_definition.specs.Check.{first_fault};
ghost use Rattle.elf_definition.specs.Fault.{elf_fault, IsRunsOf};
ghost use Rattle.elf_reader.specs.Answer.{IsAnswer, IsSound};
ghost use Rattle.elf_definition.specs.Header.{order_of, header_of, identity_fault, program_table_fault};
ghost use Rattle.elf_definition.specs.Sections.{has_sections, section_headers, section_table_fault, section_fault};
ghost use Rattle.elf_definition.specs.Segments.{program_headers, live, file_end, segment_fault, IsApart};
ghost use Rattle.elf_definition.specs.declared.range.Range.{Range};
ghost use Rattle.elf_definition.specs.declared.segment.Segment.{Segment};
ghost use Rattle.std.specs.List.{list_any};

use crate::area_checks::check_area;
use crate::code_area::{code_ranges, runs};
use crate::elf_error::ElfError;
use crate::fields::order_of;
use crate::header_checks::{check_identity, check_program_table};
use crate::headers::header_at_start;
use crate::section_checks::{check_section_table, check_sections, read_section_headers};
use crate::segment_checks::{check_segments, live_segments, read_program_headers};
use elf_definition::{ElfFault, ElfHeader, Range, SectionHeader, Segment};
use nv_words::Order;
use std::alloc::Global;

/// A 32-bit MIPS executable that passed every check.
#[derive(Debug, Drop)]
pub struct Elf<'a> {
    /// The whole file.
    pub file: &'a [u8],
    /// The order of the numbers in the file, and of the program's own.
    pub order: Order,
    /// `e_entry`: the address at which the program starts.
    pub entry: u32,
    /// The live segments, in the order of the program header table.
    pub segments: Vec<Segment>,
    /// The code area, as its maximal runs of words in rising order.
    pub code: Vec<Range>,
}

/// Reads a 32-bit MIPS executable, big-endian or little-endian (System V ABI, "Object Files").
///
/// No number in the file is trusted: memory is taken only for table entries that lie in the file, and the time is that of
/// sorting these.
///
/// # Errors
/// `Refused` with the first of the 22 checks that the file fails; `NoMemory` where there is no memory for its tables.
#[tactic(auto, unfolding(elf_definition::specs::Fault::elf_fault))]
pub fn read_elf(alloc: Global, b: &[u8]) -> Result<Elf<'_>, ElfError>
    ensures refused { IfErr result (IsAnswer (elf_fault b.now)) }
    ensures accepted { OnOk result (elf_fault b.now ≡ None) }
    ensures file { IfOk result (λ elf. elf.file.now ≡ b.now) }
    ensures order { IfOk result (λ elf. elf.order ≡ order_of b.now) }
    ensures entry { IfOk result (λ elf. elf.entry ≡ (header_of b.now).e_entry) }
    ensures segments { IfOk result (λ elf. elf.segments.items ≡ live b.now) }
    ensures sound { IfOk result (λ elf. All (IsSound (length b.now)) elf.segments.items) }
    ensures apart { IfOk result (λ elf. AllPairs IsApart elf.segments.items) }
    ensures code { IfOk result (λ elf. IsRunsOf (area b.now) elf.code.items) }

    // The code lies in the bytes in the file of the executable segments.
    ensures text { IfOk result (λ elf. (at : ℕ) → area b.now at ≡ true →
        list_any (is_in_text at) elf.segments.items ≡ true) }
    ensures low { IfOk result (λ elf.
        All (λ (r : Range). range_end r ≤ 0x7F00_0000) elf.code.items) }
{
    let header = read_header(b)?;
    let segments = read_segments(alloc, b, header)?;
    let code = read_code(alloc, b, header, segments.as_slice())?;
    Ok(Elf {
        file: b,
        order: order_of(b),
        entry: header.e_entry,
        segments,
        code,
    })
}

/// Reads the header, with the checks up to where the program header table is.
fn read_header(b: &[u8]) -> Result<ElfHeader, ElfError>
    ensures refused { IfErr result
        (IsAnswer (first_fault (identity_fault b.now ∷ program_table_fault b.now ∷ []))) }
    ensures passed { OnOk result
        (first_fault (identity_fault b.now ∷ program_table_fault b.now ∷ [])
        ≡ None) }
    ensures header { IfOk result (λ header. header ≡ header_of b.now) }
    ensures there { IfOk result (λ header. header.e_phoff + 32 * header.e_phnum ≤ length b.now) }
{
    refuse(check_identity(b))?;
    let header = header_at_start(b);
    refuse(check_program_table(b, header))?;
    Ok(header)
}

/// Reads the live segments, with the checks of the program headers.
fn read_segments(alloc: Global, b: &[u8], header: ElfHeader) -> Result<Vec<Segment>, ElfError>
    requires read { header ≡ header_of b.now }
    requires there { header.e_phoff + 32 * header.e_phnum ≤ length b.now }
    ensures refused { IfErr result
        (IsAnswer (segment_fault (length b.now) (program_headers b.now))) }
    ensures passed { OnOk result (segment_fault (length b.now) (program_headers b.now) ≡ None) }
    ensures live { IfOk result (λ segments. segments.items ≡ live b.now) }
    ensures sound { IfOk result (λ segments. All (IsSound (length b.now)) segments.items) }
    ensures apart { IfOk result (λ segments. AllPairs IsApart segments.items) }
{
    let headers = read_program_headers(alloc, b, header)?;
    refuse(check_segments(alloc, headers.as_slice(), b.len())?)?;
    let segments = live_segments(alloc, headers.as_slice())?;
    Ok(segments)
}

/// Reads the code area, with the checks of the sections and of the area.
fn read_code(
    alloc: Global,
    b: &[u8],
    header: ElfHeader,
    segments: &[Segment],
) -> Result<Vec<Range>, ElfError>
    requires read { header ≡ header_of b.now }
    requires live { segments.now ≡ live b.now }
    requires sound { All (IsSound (length b.now)) segments.now }
    ensures refused { IfErr result (IsAnswer (first_fault
        (section_table_fault b.now
        ∷ section_fault (live b.now) (section_headers b.now)
        ∷ area_fault (code_ranges b.now) (live b.now)
        ∷ []))) }
    ensures passed { OnOk result (first_fault
        (section_table_fault b.now
        ∷ section_fault (live b.now) (section_headers b.now)
        ∷ area_fault (code_ranges b.now) (live b.now)
        ∷ [])
        ≡ None) }
    ensures code { IfOk result (λ code. IsRunsOf (area b.now) code.items) }
    ensures text { OnOk result ((at : ℕ) → area b.now at ≡ true
        → list_any (is_in_text at) segments.now ≡ true) }
    ensures low { IfOk result (λ code. All (λ (r : Range). range_end r ≤ 0x7F00_0000) code.items) }
{
    let sections = read_sections(alloc, b, header, segments)?;
    read_area(alloc, header, sections.as_slice(), segments)
}

/// Reads the section headers, with their checks.
fn read_sections(
    alloc: Global,
    b: &[u8],
    header: ElfHeader,
    segments: &[Segment],
) -> Result<Vec<SectionHeader>, ElfError>
    requires { header ≡ header_of b.now }
    ensures refused { IfErr result (IsAnswer (first_fault
        (section_table_fault b.now ∷ section_fault segments.now (section_headers b.now) ∷ []))) }
    ensures passed { OnOk result (first_fault (section_table_fault b.now
        ∷ section_fault segments.now (section_headers b.now) ∷ []) ≡ None) }
    ensures sections { IfOk result (λ sections. sections.items ≡ section_headers b.now) }
{
    refuse(check_section_table(b, header))?;
    let sections = read_section_headers(alloc, b, header)?;
    refuse(check_sections(alloc, segments, sections.as_slice())?)?;
    Ok(sections)
}

/// Finds the code area, with its checks.
fn read_area(
    alloc: Global,
    header: ElfHeader,
    sections: &[SectionHeader],
    segments: &[Segment],
) -> Result<Vec<Range>, ElfError>
    requires sound { All (λ (s : Segment). (1 ≤ s.memsz)
        × (file_end s ≤ 0x7F00_0000)) segments.now }
    requires passed { section_fault segments.now sections.now ≡ None }
    ensures refused { IfErr result (IsAnswer (area_fault
        (ranges_of (has_sections header) sections.now segments.now) segments.now)) }
    ensures passed { OnOk result (area_fault
        (ranges_of (has_sections header) sections.now segments.now) segments.now ≡ None) }
    ensures code { IfOk result (λ code.
        IsRunsOf (λ at. list_any (has_address at)
        (ranges_of (has_sections header) sections.now segments.now)) code.items) }
{
    let ranges = code_ranges(alloc, header, sections, segments)?;
    refuse(check_area(alloc, ranges.as_slice(), segments)?)?;
    let code = runs(alloc, ranges.as_slice())?;
    Ok(code)
}

/// An error where a check failed.
fn refuse(fault: Option<ElfFault>) -> Result<(), ElfError>
    ensures refused { IfErr result (IsAnswer fault) }
    ensures passed { OnOk result (fault ≡ None) }
{
    match fault {
        Some(fault) => Err(ElfError::Refused(fault)),
        None => Ok(()),
    }
}
