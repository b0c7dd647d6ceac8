//! The code area: which words of the program are instructions.
ghost use Rattle.std.specs.Prelude.{◌≡◌, ℕ, ◌*◌, ◌%◌, ◌^◌, ◌≤◌, nat_lt, length, map, filter, All, IfOk, IsPermutation};
ghost use Rattle.std.specs.List.{list_any};
ghost use Rattle.std.specs.List.Sorted.{IsNonDecreasingBy};
ghost use Rattle.elf_definition.specs.Area.{ranges_of, section_range, segment_range, range_end, has_address};
ghost use Rattle.elf_definition.specs.Fault.{IsRunsOf};
ghost use Rattle.elf_definition.specs.Segments.{file_end, is_executable};
ghost use Rattle.elf_definition.specs.Sections.{has_sections, is_code};
ghost use Rattle.elf_definition.specs.declared.range.Range.{Range};
ghost use Rattle.elf_definition.specs.declared.segment.Segment.{Segment};

use elf_definition::{ElfHeader, Range, SectionHeader, Segment};
use std::alloc::{AllocError, Global};

/// The words of each code section, or, without sections, of each executable segment; not sorted, and some may be empty.
pub fn code_ranges(
    alloc: Global,
    header: ElfHeader,
    sections: &[SectionHeader],
    segments: &[Segment],
) -> Result<Vec<Range>, AllocError>
    requires low { All (λ (s : Segment). file_end s ≤ 0x7F00_0000) segments.now }
    ensures { IfOk result (λ v. v.items
        ≡ ranges_of (has_sections header) sections.now segments.now) }
{
    if header.has_sections() {
        section_ranges(alloc, sections)
    } else {
        segment_ranges(alloc, segments)
    }
}

/// The words of each code section.
fn section_ranges(alloc: Global, sections: &[SectionHeader]) -> Result<Vec<Range>, AllocError>
    ensures { IfOk result (λ v. v.items ≡ map section_range (filter is_code sections.now)) }
{
    sections
        .iter()
        .filter(|s| s.is_code())
        .map(|s| Range::of_section(s))
        .collect(alloc)
}

/// The words of the bytes in the file of each executable segment.
fn segment_ranges(alloc: Global, segments: &[Segment]) -> Result<Vec<Range>, AllocError>
    requires { All (λ (s : Segment). file_end s ≤ 0x7F00_0000) segments.now }
    ensures { IfOk result (λ v. v.items ≡ map segment_range (filter is_executable segments.now)) }
{
    let mut ranges = Vec::new(alloc);
    for s in segments {
        if s.is_executable() {
            ranges.push(Range::of_segment(s))?;
        }
    }
    Ok(ranges)
}

/// The ranges as the maximal runs of their words, in rising order.
pub fn runs(alloc: Global, ranges: &[Range]) -> Result<Vec<Range>, AllocError>
    requires aligned { All (λ (r : Range). r.first % 4 ≡ 0) ranges.now }
    requires low { All (λ (r : Range). range_end r ≤ 2 ^ 32) ranges.now }
    ensures { IfOk result (λ v. IsRunsOf (λ at. list_any (has_address at) ranges.now) v.items) }
{
    let sorted = by_first(filled(alloc, ranges)?)?;
    merged(alloc, sorted.as_slice())
}

/// The ranges that have words.
fn filled(alloc: Global, ranges: &[Range]) -> Result<Vec<Range>, AllocError>
    ensures { IfOk result (λ v. v.items ≡ filter (λ (r : Range). nat_lt 0 r.words) ranges.now) }
{
    ranges
        .iter()
        .filter(|r| r.words > 0)
        .copied()
        .collect(alloc)
}

/// The ranges by their first addresses.
fn by_first(mut ranges: Vec<Range>) -> Result<Vec<Range>, AllocError>
    ensures rise { IfOk result (λ v. IsNonDecreasingBy (λ (r : Range). r.first) v.items) }
    ensures same { IfOk result (λ v. IsPermutation ranges.items v.items) }
{
    ranges.sort_by_key(|r| r.first)?;
    Ok(ranges)
}

/// The maximal runs of ranges that rise and have words.
fn merged(alloc: Global, ranges: &[Range]) -> Result<Vec<Range>, AllocError>
    requires rise { IsNonDecreasingBy (λ (r : Range). r.first) ranges.now }
    requires filled { All (λ (r : Range). 1 ≤ r.words) ranges.now }
    requires aligned { All (λ (r : Range). r.first % 4 ≡ 0) ranges.now }
    requires low { All (λ (r : Range). range_end r ≤ 2 ^ 32) ranges.now }
    ensures { IfOk result (λ v. IsRunsOf (λ at. list_any (has_address at) ranges.now) v.items) }
{
    let mut runs = Vec::new(alloc);
    if ranges.is_empty() {
        return Ok(runs);
    }
    let mut run = ranges[0];
    for r in ranges {
        if u64::from(r.first) <= run.end() {
            run = run.joined(*r);
        } else {
            runs.push(run)?;
            run = *r;
        }
    }
    runs.push(run)?;
    Ok(runs)
}
