//! The program header table and its checks (System V ABI, "Program Header").
ghost use Rattle.std.specs.Prelude.{◌≡◌, [], ◌∷◌, ◌+◌, ◌*◌, ◌<◌, ◌≤◌, length, map, filter, position, IfOk, IfSome};
ghost use Rattle.elf_definition.specs.Check.{fails_at, first_fault};
ghost use Rattle.elf_definition.specs.Header.{header_of};
ghost use Rattle.elf_definition.specs.Segments.{program_headers, segment_fault, is_live, is_dynamic, is_outside, is_oversized, is_too_high, is_writable_text};
ghost use Rattle.elf_definition.specs.declared.program_header.ProgramHeader.{ProgramHeader};

use crate::fault::fault_at;
use crate::headers::program_header_at;
use crate::overlap::check_overlap;
use elf_definition::{ElfFault, ElfHeader, ProgramHeader, Segment};
use std::alloc::{AllocError, Global};

/// Reads the program header table, which lies in the file.
#[tactic(auto, unfolding(elf_definition::specs::Segments::program_headers))]
pub fn read_program_headers(
    alloc: Global,
    b: &[u8],
    header: ElfHeader,
) -> Result<Vec<ProgramHeader>, AllocError>
    requires read { header ≡ header_of b.now }
    requires there { header.e_phoff + 32 * header.e_phnum ≤ length b.now }
    ensures read { IfOk result (λ headers. headers.items ≡ program_headers b.now) }
    ensures few { IfOk result (λ headers. length headers.items < 65536) }
{
    let mut headers = Vec::new(alloc);
    for i in 0..header.e_phnum {
        headers.push(program_header_at(b, header, i))?;
    }
    Ok(headers)
}

/// The first header that is `PT_DYNAMIC` or `PT_INTERP`.
fn first_dynamic(headers: &[ProgramHeader]) -> Option<usize>
    ensures first { result ≡ position is_dynamic headers.now }
    ensures bound { IfSome result (λ i. i < length headers.now) }
{
    headers.iter().position(|h| h.is_dynamic())
}

/// The first segment whose bytes run past the end of a file of `len` bytes.
fn first_outside(headers: &[ProgramHeader], len: usize) -> Option<usize>
    ensures first { result ≡ position (is_outside len) headers.now }
    ensures bound { IfSome result (λ i. i < length headers.now) }
{
    headers.iter().position(|h| h.is_outside(len))
}

/// The first segment with more bytes in the file than in memory.
fn first_oversized(headers: &[ProgramHeader]) -> Option<usize>
    ensures first { result ≡ position is_oversized headers.now }
    ensures bound { IfSome result (λ i. i < length headers.now) }
{
    headers.iter().position(|h| h.is_oversized())
}

/// The first live segment that ends above 7F000000.
fn first_too_high(headers: &[ProgramHeader]) -> Option<usize>
    ensures first { result ≡ position is_too_high headers.now }
    ensures bound { IfSome result (λ i. i < length headers.now) }
{
    headers.iter().position(|h| h.is_too_high())
}

/// The first live segment that is both writable and executable.
fn first_writable_text(headers: &[ProgramHeader]) -> Option<usize>
    ensures first { result ≡ position is_writable_text headers.now }
    ensures bound { IfSome result (λ i. i < length headers.now) }
{
    headers.iter().position(|h| h.is_writable_text())
}

/// The first of the checks of the program headers of a file of `len` bytes.
#[tactic(auto, unfolding(elf_definition::specs::Segments::segment_fault))]
pub fn check_segments(
    alloc: Global,
    headers: &[ProgramHeader],
    len: usize,
) -> Result<Option<ElfFault>, AllocError>
    requires { length headers.now < 65536 }
    ensures { IfOk result (λ fault. fault ≡ segment_fault len headers.now) }
{
    if let Some(fault) = check_each(headers, len) {
        return Ok(Some(fault));
    }
    if let Some(fault) = check_overlap(alloc, headers)? {
        return Ok(Some(fault));
    }
    Ok(fault_at(ElfFault::WRITABLE_TEXT, first_writable_text(headers)))
}

/// The first of the checks that look at one header at a time, up to the addresses.
fn check_each(headers: &[ProgramHeader], len: usize) -> Option<ElfFault>
    requires { length headers.now < 65536 }
    ensures { result
        ≡ first_fault
        (fails_at 11 (position is_dynamic headers.now)
        ∷ fails_at 12 (position (is_outside len) headers.now)
        ∷ fails_at 13 (position is_oversized headers.now)
        ∷ fails_at 14 (position is_too_high headers.now)
        ∷ []) }
{
    if let Some(fault) = fault_at(ElfFault::DYNAMIC, first_dynamic(headers)) {
        return Some(fault);
    }
    if let Some(fault) = fault_at(ElfFault::SEGMENT_OUTSIDE, first_outside(headers, len)) {
        return Some(fault);
    }
    if let Some(fault) = fault_at(ElfFault::SEGMENT_SIZES, first_oversized(headers)) {
        return Some(fault);
    }
    fault_at(ElfFault::ADDRESS_OUTSIDE, first_too_high(headers))
}

/// The live segments, in the order of the table.
pub fn live_segments(alloc: Global, headers: &[ProgramHeader]) -> Result<Vec<Segment>, AllocError>
    ensures { IfOk result (λ v. v.items
        ≡ map (λ (h : ProgramHeader). h.segment) (filter is_live headers.now)) }
{
    headers
        .iter()
        .filter(|h| h.is_live())
        .map(|h| h.segment)
        .collect(alloc)
}
