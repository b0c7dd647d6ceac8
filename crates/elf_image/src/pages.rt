//! The pages that segments lie on.
ghost use Rattle.std.specs.Prelude.{◌≡◌, ◌≤◌, All, ◌+◌, ◌/◌};
ghost use Rattle.elf_definition.specs.Pages.{is_on_page, heap_page};
ghost use Rattle.elf_definition.specs.Segments.{segment_end};
ghost use Rattle.elf_definition.specs.declared.segment.Segment.{Segment};

use elf_reader::Segment;

/// The number of pages below 80000000 (hexadecimal).
pub const PAGES: u32 = 524_288;

/// Whether a page holds a byte of a segment.
pub fn is_on_page(segment: &Segment, page: u32) -> bool
    ensures { result ≡ is_on_page page segment.now }
{
    let first = 4096 * u64::from(page);
    let end = u64::from(segment.vaddr) + u64::from(segment.memsz);
    u64::from(segment.vaddr).max(first) < end.min(first + 4096)
}

/// The first page past the highest segment.
#[tactic(auto, unfolding(elf_definition::specs::Pages::heap_page))]
pub fn heap_page(segments: &[Segment]) -> u32
    requires low { All (λ (s : Segment). segment_end s ≤ 0x7F00_0000) segments.now }
    ensures page { result ≡ heap_page segments.now }
    ensures bound { result ≤ 0x7F000 }
    ensures behind { All (λ s. (segment_end s + 4095) / 4096 ≤ result) segments.now }
{
    let mut page = 0;
    for s in segments {
        page = page.max(page_behind(s));
    }
    page
}

/// The first page past a segment.
pub fn page_behind(segment: &Segment) -> u32
    requires { segment_end segment.now ≤ 0x7F00_0000 }
    ensures page { result ≡ (segment_end segment.now + 4095) / 4096 }
    ensures bound { result ≤ 0x7F000 }
{
    (segment.vaddr + segment.memsz).div_ceil(4096)
}
