//! The bytes that segments have in the file, page by page.
ghost use Rattle.std.specs.Prelude.{◌≡◌, ℕ, ◌+◌, ◌-◌, ◌*◌, ◌/◌, ◌<◌, ◌≤◌, ◌==◌, not, max, min, ◌||◌, All, AllPairs, length, slice_index, IfOk};
ghost use Rattle.std.specs.List.{list_any};
ghost use Rattle.elf_reader.specs.Answer.{IsSound};
ghost use Rattle.elf_definition.specs.Segments.{IsApart, file_end};
ghost use Rattle.elf_definition.specs.declared.segment.Segment.{Segment};
ghost use Rattle.elf_definition.specs.Content.{file_byte, has_data, is_filled_page};
ghost use Rattle.elf_image.specs.PageTable.{marked};

use crate::page_marks::{mark, unmarked};
use crate::pages::heap_page;
use elf_reader::Segment;
use std::alloc::{AllocError, Global};

/// The first address after a segment's bytes in the file.
pub fn file_end(segment: &Segment) -> u64
    ensures { result ≡ file_end segment.now }
{
    u64::from(segment.vaddr) + u64::from(segment.filesz)
}

/// The first address of a page that may hold one of a segment's bytes.
pub fn first_on_page(segment: &Segment, page: u32) -> u64
    ensures { result ≡ max segment.now.vaddr (4096 * page) }
{
    u64::from(segment.vaddr).max(4096 * u64::from(page))
}

/// The bytes that a segment has in the file for a page.
pub fn piece<'a>(file: &'a [u8], segment: &Segment, page: u32) -> &'a [u8]
    requires sound { IsSound (length file.now) segment.now }
    ensures len { length result.now
        ≡ min (file_end segment.now) (4096 * page + 4096) - max segment.now.vaddr (4096 * page) }
    ensures bytes { (k : ℕ) → k < length result.now
        → slice_index result.now k
        ≡ file_byte file.now (max segment.now.vaddr (4096 * page) + k) segment.now }
{
    let first = first_on_page(segment, page);
    let end = file_end(segment).min(4096 * u64::from(page) + 4096);
    if end <= first {
        return &file[0..0];
    }
    let start = u64::from(segment.offset) + (first - u64::from(segment.vaddr));
    &file[start as usize..(start + (end - first)) as usize]
}

/// Whether a page holds a byte of a segment's bytes in the file that is not 0.
fn has_data(file: &[u8], segment: &Segment, page: u32) -> bool
    requires sound { IsSound (length file.now) segment.now }
    ensures { result ≡ has_data file.now page segment.now }
{
    is_filled(piece(file, segment, page))
}

/// Whether one of the bytes is not 0.
fn is_filled(bytes: &[u8]) -> bool
    ensures { result ≡ list_any (λ byte. not (byte == 0)) bytes.now }
{
    bytes.iter().any(|byte| *byte != 0)
}

/// The first page after a segment's bytes in the file.
pub fn page_behind_data(segment: &Segment) -> u32
    requires { file_end segment.now ≤ 0x7F00_0000 }
    ensures page { result ≡ (file_end segment.now + 4095) / 4096 }
    ensures bound { result ≤ 0x7F000 }
{
    (segment.vaddr + segment.filesz).div_ceil(4096)
}

/// Marks the pages that hold a byte of a segment's bytes in the file that is not 0.
fn mark_data(marks: &mut [bool], file: &[u8], segment: &Segment)
    requires within { (file_end segment.now + 4095) / 4096 ≤ length marks.old }
    requires sound { IsSound (length file.now) segment.now }
    ensures len { length marks.new ≡ length marks.old }
    ensures marks { (p : ℕ) → marked marks.new p
        ≡ (marked marks.old p || has_data file.now p segment.now) }
{
    for page in segment.vaddr / 4096..page_behind_data(segment) {
        mark(marks, page, has_data(file, segment, page));
    }
}

/// The pages of the segments that hold a byte that is not 0.
pub fn filled_marks(
    alloc: Global,
    file: &[u8],
    segments: &[Segment],
) -> Result<Vec<bool>, AllocError>
    requires sound { All (IsSound (length file.now)) segments.now }
    requires apart { AllPairs IsApart segments.now }
    ensures len { IfOk result (λ marks. length marks.items ≤ 524288) }
    ensures marks { IfOk result (λ marks. (page : ℕ)
        → marked marks.items page ≡ is_filled_page file.now segments.now page) }
{
    let mut marks = unmarked(alloc, heap_page(segments))?;
    for segment in segments {
        mark_data(marks.as_mut_slice(), file, segment);
    }
    Ok(marks)
}
