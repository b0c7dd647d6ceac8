//! The checks of the code area.
ghost use Rattle.std.specs.Prelude.{◌≡◌, ℕ, ◌+◌, ◌^◌, ◌<◌, ◌≤◌, ◌&&◌, ◌==◌, length, map, filter, All, IfOk, IfSome};
ghost use Rattle.std.specs.List.{list_any, list_all};
ghost use Rattle.elf_definition.specs.Area.{range_end, range_is_on_page, is_shared_page, area_fault, address_pages};
ghost use Rattle.elf_definition.specs.Check.{least_below};
ghost use Rattle.elf_definition.specs.Segments.{is_writable};
ghost use Rattle.elf_reader.specs.Spans.{are_within, AreRising, AreFilled, IsLeastFrom, lesser, page_span};
ghost use Rattle.elf_definition.specs.declared.range.Range.{Range};
ghost use Rattle.elf_definition.specs.declared.segment.Segment.{Segment};

use crate::fault::{fault_at, fault_when};
use crate::reach::{next_within, rising};
use crate::span::Span;
use elf_definition::{ElfFault, Range, Segment};
use std::alloc::{AllocError, Global};

/// The first of the checks of the code area, beside the live segments.
///
/// The writable segments are sorted by their pages, and each range of code looks for the next such page.
#[tactic(auto, unfolding(elf_definition::specs::Area::area_fault))]
pub fn check_area(
    alloc: Global,
    ranges: &[Range],
    segments: &[Segment],
) -> Result<Option<ElfFault>, AllocError>
    requires low { All (λ (r : Range). range_end r ≤ 2 ^ 32) ranges.now }
    requires live { All (λ (s : Segment). 1 ≤ s.memsz) segments.now }
    ensures { IfOk result (λ fault. fault ≡ area_fault ranges.now segments.now) }
{
    if is_empty(ranges) {
        return Ok(fault_when(ElfFault::NO_CODE, true));
    }
    let page = shared_page(alloc, ranges, segments)?;
    Ok(fault_at(ElfFault::SHARED_PAGE, page))
}

/// Whether no range has a word.
fn is_empty(ranges: &[Range]) -> bool
    ensures { result ≡ list_all (λ (r : Range). r.words == 0) ranges.now }
{
    ranges.iter().all(|r| r.words == 0)
}

/// The lowest page that holds a byte of a range and a byte of a writable segment.
fn shared_page(
    alloc: Global,
    ranges: &[Range],
    segments: &[Segment],
) -> Result<Option<usize>, AllocError>
    requires low { All (λ (r : Range). range_end r ≤ 2 ^ 32) ranges.now }
    requires live { All (λ (s : Segment). 1 ≤ s.memsz) segments.now }
    ensures least { IfOk result (λ page. page
        ≡ least_below (is_shared_page ranges.now segments.now) address_pages) }
    ensures bound { IfOk result (λ page. IfSome page (λ i. i < 2 ^ 20)) }
{
    let pages = rising(alloc, data_pages(alloc, segments)?)?;
    Ok(least_shared(ranges, pages.as_slice()))
}

/// The pages of each writable segment.
fn data_pages(alloc: Global, segments: &[Segment]) -> Result<Vec<Span>, AllocError>
    ensures { IfOk result (λ v. v.items ≡ map page_span (filter is_writable segments.now)) }
{
    segments
        .iter()
        .filter(|s| s.is_writable())
        .map(|s| Span {
            first: u64::from(s.vaddr / 4096),
            end: s.end().div_ceil(4096),
        })
        .collect(alloc)
}

/// The lowest page that holds a byte of a range and lies in one of the rising spans of pages.
fn least_shared(ranges: &[Range], pages: &[Span]) -> Option<usize>
    requires rise { AreRising pages.now }
    requires filled { AreFilled pages.now }
    requires low { All (λ (r : Range). range_end r ≤ 2 ^ 32) ranges.now }
    ensures least { IsLeastFrom 0 (λ page. list_any (range_is_on_page page) ranges.now
        && are_within page (page + 1) pages.now) result }
    ensures bound { IfSome result (λ i. i < 2 ^ 20) }
{
    let mut least = None;
    for r in ranges {
        least = lesser(least, shared_with(*r, pages));
    }
    least
}

/// The lowest page that holds a byte of the range and lies in one of the rising spans of pages.
fn shared_with(range: Range, pages: &[Span]) -> Option<usize>
    requires rise { AreRising pages.now }
    requires filled { AreFilled pages.now }
    requires low { range_end range ≤ 2 ^ 32 }
    ensures least { IsLeastFrom 0 (λ page. range_is_on_page page range
        && are_within page (page + 1) pages.now) result }
    ensures bound { IfSome result (λ i. i < 2 ^ 20) }
{
    if range.words == 0 {
        return None;
    }
    match next_within(pages, u64::from(range.first / 4096)) {
        Some(page) if page < range.end().div_ceil(4096) => Some(page as usize),
        _ => None,
    }
}

/// The lesser of two numbers that may be there.
fn lesser(a: Option<usize>, b: Option<usize>) -> Option<usize>
    ensures { result ≡ lesser a b }
{
    match (a, b) {
        (Some(a), Some(b)) => Some(a.min(b)),
        (Some(a), None) => Some(a),
        (None, b) => b,
    }
}
