ghost use Rattle.std.specs.Prelude.{◌≡◌, ℕ, ◌+◌, ◌-◌, ◌≤◌, ◌<◌, max, min, None, false, All, IfOk, length, ◌/◌};
ghost use Rattle.elf_definition.specs.Check.{least_below};
ghost use Rattle.elf_definition.specs.Segments.{segment_end};
ghost use Rattle.elf_definition.specs.declared.segment.Segment.{Segment};
ghost use Rattle.mips_definition.specs.State.{argument_page};
ghost use Rattle.elf_definition.specs.Pages.{pages_below, heap_page, is_segment_page, is_data_page, is_heap_page, is_stack_page, is_readable_page, is_writable_page, is_shared, mapped_pages, count_below};
ghost use Rattle.elf_image.specs.PageTable.{marked};

use crate::page_marks::{count_marks, data_marks, is_marked, segment_marks};
use crate::pages::{PAGES, heap_page};
use elf_reader::Segment;
use std::alloc::{AllocError, Global};
use std::ops::Range;
use std::snapshot::Snapshot;

/// Where segments, heap, stack and argument page lie.
#[derive(Drop)]
pub struct Layout {
    /// The live segments, which only clauses read.
    pub segments: Snapshot<Vec<Segment>>,
    /// The pages that hold a byte of a segment.
    pub pages: Vec<bool>,
    /// The pages that hold a byte of a segment that may be written.
    pub data: Vec<bool>,
    /// The first page of the heap.
    pub heap_first: u32,
    /// The pages of the heap.
    pub heap: u32,
    /// The pages of the stack.
    pub stack: u32,
    ghost pages_are: { (page : ℕ) → marked pages.items page
        ≡ is_segment_page segments.value.items page },
    ghost data_are: { (page : ℕ) → marked data.items page
        ≡ is_data_page segments.value.items page },
    ghost len: { length pages.items ≡ heap_first },
    ghost first: { heap_first ≡ heap_page segments.value.items },
    ghost low: { heap_first ≤ 0x7F000 },
    ghost heap_fits: { heap ≤ 32768 },
    ghost stack_fits: { stack ≤ 32768 },
}

impl Layout {
    /// The page of the program's arguments, which is the last one below 80000000 (hexadecimal).
    const ARGUMENT_PAGE: u32 = 0x7FFFF;

    /// The layout of a program with these live segments, and with this many pages of heap and stack.
    pub fn new(
        alloc: Global,
        segments: &Vec<Segment>,
        heap: u32,
        stack: u32,
    ) -> Result<Layout, AllocError>
        requires low { All (λ (s : Segment). segment_end s ≤ 0x7F00_0000) segments.now.items }
        requires heap_fits { heap ≤ 32768 }
        requires stack_fits { stack ≤ 32768 }
        ensures segments { IfOk result (λ layout. layout.segments.value.items
            ≡ segments.now.items) }
        ensures heap { IfOk result (λ layout. layout.heap ≡ heap) }
        ensures stack { IfOk result (λ layout. layout.stack ≡ stack) }
    {
        let pages = segment_marks(alloc, segments.as_slice())?;
        let data = data_marks(alloc, segments.as_slice())?;
        let heap_first = heap_page(segments.as_slice());
        Ok(Layout {
            segments: Snapshot::of(segments),
            pages,
            data,
            heap_first,
            heap,
            stack,
        })
    }

    fn is_segment(&self, page: u32) -> bool
        ensures { result ≡ is_segment_page self.now.segments.value.items page }
    {
        is_marked(self.pages.as_slice(), page)
    }

    fn is_data(&self, page: u32) -> bool
        ensures { result ≡ is_data_page self.now.segments.value.items page }
    {
        is_marked(self.data.as_slice(), page)
    }

    fn is_heap(&self, page: u32) -> bool
        ensures { result ≡ is_heap_page self.now.segments.value.items self.now.heap page }
    {
        self.heap_first <= page && page < self.heap_first + self.heap
    }

    fn is_stack(&self, page: u32) -> bool
        ensures { result ≡ is_stack_page self.now.stack page }
    {
        Layout::ARGUMENT_PAGE - self.stack <= page && page < Layout::ARGUMENT_PAGE
    }

    /// Whether the page belongs to two of segments, heap, stack and argument page.
    #[tactic(auto, unfolding(elf_definition::specs::Pages::is_shared))]
    fn is_shared(&self, page: u32) -> bool
        ensures { result
            ≡ is_shared self.now.segments.value.items self.now.heap self.now.stack page }
    {
        let segment = self.is_segment(page);
        let heap = self.is_heap(page);
        let stack = self.is_stack(page);
        let argument = page == Layout::ARGUMENT_PAGE;
        segment && (heap || stack || argument) || heap && (stack || argument) || stack && argument
    }

    /// Whether the page can be read.
    #[tactic(auto, unfolding(elf_definition::specs::Pages::is_readable_page))]
    pub fn is_readable(&self, page: u32) -> bool
        ensures { result
            ≡ is_readable_page self.now.segments.value.items self.now.heap self.now.stack page }
    {
        self.is_segment(page)
            || self.is_heap(page)
            || self.is_stack(page)
            || page == Layout::ARGUMENT_PAGE
    }

    /// Whether the page can be written.
    #[tactic(auto, unfolding(elf_definition::specs::Pages::is_writable_page))]
    pub fn is_writable(&self, page: u32) -> bool
        ensures { result
            ≡ is_writable_page self.now.segments.value.items self.now.heap self.now.stack page }
    {
        self.is_data(page)
            || self.is_heap(page)
            || self.is_stack(page)
            || page == Layout::ARGUMENT_PAGE
    }

    /// How many pages segments, heap, stack and argument page have, each page counted for each of these that it belongs to.
    #[tactic(auto, unfolding(elf_definition::specs::Pages::mapped_pages))]
    pub fn pages(&self) -> u32
        ensures { result ≡ mapped_pages self.now.segments.value.items self.now.heap self.now.stack }
    {
        self.segment_pages() + self.heap + self.stack + 1
    }

    /// How many pages hold a byte of a segment.
    fn segment_pages(&self) -> u32
        ensures count { result ≡ count_below (is_segment_page self.now.segments.value.items) pages_below }
        ensures bound { result ≤ 524288 }
    {
        count_marks(self.pages.as_slice())
    }

    /// The lowest page that belongs to two of segments, heap, stack and argument page.
    #[tactic(auto, using(crate::proofs::Counting::least_none))]
    pub fn first_shared(&self) -> Option<u32>
        ensures { result
            ≡ least_below (is_shared self.now.segments.value.items self.now.heap self.now.stack)
            pages_below }
    {
        let gap = self.gap();
        match self.first_shared_from(0, gap.start) {
            Some(page) => Some(page),
            None => self.first_shared_from(gap.end, PAGES),
        }
    }

    /// The lowest such page, if there is none below the first one of these.
    #[tactic(auto, using(crate::proofs::Counting::least_more, crate::proofs::Counting::least_found))]
    fn first_shared_from(&self, first: u32, end: u32) -> Option<u32>
        requires ordered { first ≤ end }
        requires none { least_below
            (is_shared self.now.segments.value.items self.now.heap self.now.stack) first ≡ None }
        ensures { result
            ≡ least_below (is_shared self.now.segments.value.items self.now.heap self.now.stack)
            end }
    {
        for page in first..end {
            if self.is_shared(page) {
                return Some(page);
            }
        }
        None
    }

    /// The pages between segments and heap on the one side and the stack on the other, which are for nothing.
    pub fn gap(&self) -> Range<u32>
        ensures start { result.start
            ≡ min (heap_page self.now.segments.value.items + self.now.heap) pages_below }
        ensures end { result.end ≡ max (argument_page / 4096 - self.now.stack) result.start }
        ensures low { result.end ≤ 524288 }
        ensures ordered { result.start ≤ result.end }
        ensures unused { (page : ℕ) → result.start ≤ page → page < result.end
            → is_readable_page self.now.segments.value.items self.now.heap self.now.stack page
            ≡ false }
    {
        let start = (self.heap_first + self.heap).min(PAGES);
        start..(Layout::ARGUMENT_PAGE - self.stack).max(start)
    }
}
