//! Marks of pages, from page 0 to the last one of the segments.
ghost use Rattle.std.specs.Prelude.{◌≡◌, ℕ, ◌<◌, ◌≤◌, ◌==◌, false, ◌&&◌, ◌||◌, All, length, slice_index, IfOk, ◌+◌, ◌/◌};
ghost use Rattle.elf_reader.specs.Answer.{IsSound};
ghost use Rattle.elf_definition.specs.Segments.{segment_end, is_writable};
ghost use Rattle.elf_definition.specs.declared.segment.Segment.{Segment};
ghost use Rattle.elf_definition.specs.Pages.{is_on_page, heap_page, is_segment_page, is_data_page, count_below};
ghost use Rattle.elf_image.specs.PageTable.{marked, number_of};

use crate::pages::{heap_page, is_on_page, page_behind};
use elf_reader::Segment;
use std::alloc::{AllocError, Global};

/// None of so many pages is marked.
pub fn unmarked(alloc: Global, pages: u32) -> Result<Vec<bool>, AllocError>
    ensures len { IfOk result (λ marks. length marks.items ≡ pages) }
    ensures none { IfOk result (λ marks. (page : ℕ) → marked marks.items page ≡ false) }
{
    vec![in alloc; false; pages as usize]
}

/// Whether a page is marked.
pub fn is_marked(marks: &[bool], page: u32) -> bool
    ensures { result ≡ marked marks.now page }
{
    marks.get(page as usize).copied().unwrap_or(false)
}

/// Marks a page, if it is `on`.
pub fn mark(marks: &mut [bool], page: u32, on: bool)
    requires { page < length marks.old }
    ensures len { length marks.new ≡ length marks.old }
    ensures marks { (p : ℕ) → marked marks.new p ≡ (marked marks.old p || (on && p == page)) }
{
    if on {
        marks[page as usize] = true;
    }
}

/// Marks the pages that hold a byte of a segment.
fn mark_segment(marks: &mut [bool], segment: &Segment)
    requires within { (segment_end segment.now + 4095) / 4096 ≤ length marks.old }
    requires low { segment_end segment.now ≤ 0x7F00_0000 }
    ensures len { length marks.new ≡ length marks.old }
    ensures marks { (p : ℕ) → marked marks.new p
        ≡ (marked marks.old p || is_on_page p segment.now) }
{
    for page in segment.vaddr / 4096..page_behind(segment) {
        mark(marks, page, is_on_page(segment, page));
    }
}

/// Marks the pages that hold a byte of a segment, where that may be written (`PF_W`).
fn mark_writable(marks: &mut [bool], segment: &Segment)
    requires within { (segment_end segment.now + 4095) / 4096 ≤ length marks.old }
    requires low { segment_end segment.now ≤ 0x7F00_0000 }
    ensures len { length marks.new ≡ length marks.old }
    ensures marks { (p : ℕ) → marked marks.new p
        ≡ (marked marks.old p || (is_writable segment.now && is_on_page p segment.now)) }
{
    if segment.flags & 2 != 0 {
        mark_segment(marks, segment);
    }
}

/// The pages that hold a byte of a segment.
pub fn segment_marks(alloc: Global, segments: &[Segment]) -> Result<Vec<bool>, AllocError>
    requires low { All (λ (s : Segment). segment_end s ≤ 0x7F00_0000) segments.now }
    ensures len { IfOk result (λ marks. length marks.items ≡ heap_page segments.now) }
    ensures marks { IfOk result (λ marks. (page : ℕ) → marked marks.items page
        ≡ is_segment_page segments.now page) }
{
    let mut marks = unmarked(alloc, heap_page(segments))?;
    for segment in segments {
        mark_segment(marks.as_mut_slice(), segment);
    }
    Ok(marks)
}

/// The pages that hold a byte of a segment that may be written (`PF_W`).
pub fn data_marks(alloc: Global, segments: &[Segment]) -> Result<Vec<bool>, AllocError>
    requires low { All (λ (s : Segment). segment_end s ≤ 0x7F00_0000) segments.now }
    ensures { IfOk result (λ marks. (page : ℕ) → marked marks.items page
        ≡ is_data_page segments.now page) }
{
    let mut marks = unmarked(alloc, heap_page(segments))?;
    for segment in segments {
        mark_writable(marks.as_mut_slice(), segment);
    }
    Ok(marks)
}

/// How many pages are marked.
#[tactic(auto, using(crate::proofs::Counting::count_none, crate::proofs::Counting::count_more, crate::proofs::Counting::count_same))]
pub fn count_marks(marks: &[bool]) -> u32
    requires { length marks.now ≤ 524288 }
    ensures count { result ≡ count_below (marked marks.now) 524288 }
    ensures bound { result ≤ 524288 }
{
    let mut count = 0;
    for page in 0..marks.len() as u32 {
        if is_marked(marks, page) {
            count += 1;
        }
    }
    count
}

/// The marked pages numbered from 1 on, and 0 for each of the others.
pub fn numbers(alloc: Global, marks: &[bool]) -> Result<Vec<u32>, AllocError>
    requires { length marks.now ≤ 524288 }
    ensures { IfOk result (λ numbers. (page : ℕ)
        → slice_index numbers.items page ≡ number_of (marked marks.now) page) }
{
    let mut numbers = Vec::with_capacity(alloc, marks.len())?;
    let mut count = 0;
    for page in 0..marks.len() as u32 {
        if is_marked(marks, page) {
            count += 1;
            numbers.push(count)?;
        } else {
            numbers.push(0)?;
        }
    }
    Ok(numbers)
}
