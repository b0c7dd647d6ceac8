ghost use Rattle.std.specs.Prelude.{◌≡◌, ℕ, ◌+◌, ◌-◌, ◌*◌, ◌/◌, ◌%◌, ◌^◌, ◌<◌, ◌≤◌, max, min, false, List, All, None, IfOk, IfSome, is_some, length, slice_index};
ghost use Rattle.std.specs.List.{list_any};
ghost use Rattle.elf_definition.specs.Header.{header_of};
ghost use Rattle.elf_definition.specs.Segments.{live};
ghost use Rattle.elf_definition.specs.Area.{area, has_address};
ghost use Rattle.elf_definition.specs.Fault.{elf_fault, IsRunsOf};
ghost use Rattle.elf_definition.specs.Content.{stored_byte, stored_word, is_filled_page};
ghost use Rattle.run_definition.specs.Words.{lane_of_word};
ghost use Rattle.mips_definition.specs.State.{argument_page};
ghost use Rattle.elf_definition.specs.Pages.{pages_below, heap_page, count_below};
ghost use Rattle.elf_definition.specs.ImageFault.{code_words, image_fault};
ghost use Rattle.elf_definition.specs.Start.{image_of, readable, writable};
ghost use Rattle.elf_image.specs.Whole.{IsWholeRange};
ghost use Rattle.elf_definition.specs.declared.range.Range.{Range};

use crate::layout::Layout;
use crate::page_table::PageTable;
use elf_reader::{Elf, Range};
use nv_words::Order;
use std::alloc::{AllocError, Global};
use std::marker::Model;
use std::ops;

/// The memory and the code with which a program starts.
///
/// A page has 4,096 bytes. The program's pages are those of its segments, the heap, the stack and the argument page; which
/// pages are mapped never changes while it runs. Of the segments' bytes only the pages that are not all zero are kept.
#[derive(Drop)]
pub struct Image {
    entry: u32,
    code: Vec<Range>,
    layout: Layout,
    table: PageTable,
    mapped: u32,
}

impl Model for Image {
    ghost use Rattle.elf_definition.specs.Start.{Source};
    ghost use Rattle.elf_image.specs.Kept.{IsKeptImage};

    ghost Value = { Source };

    ghost view = { λ i. record {
      file = i.table.file.bytes;
      heap = i.layout.heap;
      stack = i.layout.stack;
    } };

    ghost invariant = { λ i. IsKeptImage i.table.file.bytes i.entry i.code.items
        i.layout.segments.value.items i.table.segments.value.items i.layout.heap i.layout.stack i.mapped };
}

impl Image {
    /// The image of a file that passed the checks.
    pub(crate) fn kept(
        alloc: Global,
        elf: &Elf<'_>,
        layout: Layout,
        table: PageTable,
    ) -> Result<Image, AllocError>
        requires accepted { elf_fault elf.now.file.now ≡ None }
        requires entry { elf.now.entry ≡ (header_of elf.now.file.now).e_entry }
        requires code { IsRunsOf (area elf.now.file.now) elf.now.code.items }
        requires file { table.file.bytes ≡ elf.now.file.now }
        requires stored { table.segments.value.items ≡ live elf.now.file.now }
        requires laid { layout.segments.value.items ≡ live elf.now.file.now }
        requires passed { image_fault elf.now.file.now elf.now.code.items layout.heap layout.stack
            ≡ None }
        ensures { IfOk result (λ i. i
            ≡ record { file = elf.now.file.now; heap = layout.heap; stack = layout.stack }) }
    {
        let code = elf.code.as_slice().to_vec(alloc)?;
        let mapped = layout.pages();
        Ok(Image {
            entry: elf.entry,
            code,
            layout,
            table,
            mapped,
        })
    }

    /// The address at which the program starts.
    #[tactic(auto, unfolding(elf_definition::specs::Start::image_of))]
    pub fn entry(&self) -> u32
        ensures { result ≡ (image_of self.now).entry }
    {
        self.entry
    }

    /// The order of the bytes of the program's words. The code's are read in it; those of pages are as they are in memory.
    #[tactic(auto, unfolding(elf_definition::specs::Start::image_of))]
    pub fn order(&self) -> Order
        ensures { result ≡ (image_of self.now).order }
    {
        self.table.order
    }

    /// The code area, as its maximal runs of words in rising order.
    pub fn ranges(&self) -> &[Range]
        ensures { IsRunsOf (area self.now.file) result.now }
    {
        self.code.as_slice()
    }

    /// The word at an address, if it is a multiple of 4 in the code area.
    #[tactic(auto, unfolding(elf_definition::specs::Start::image_of, elf_definition::specs::Start::code_at))]
    pub fn word(&self, at: u32) -> Option<u32>
        ensures { result ≡ (image_of self.now).code at }
    {
        if at % 4 == 0 && has_address(self.code.as_slice(), at) {
            Some(self.table.code_word(u64::from(at)))
        } else {
            None
        }
    }

    /// Whether a page can be read.
    pub fn readable(&self, page: u32) -> bool
        ensures { result ≡ readable self.now page }
    {
        self.layout.is_readable(page)
    }

    /// Whether a page can be written.
    pub fn writable(&self, page: u32) -> bool
        ensures { result ≡ writable self.now page }
    {
        self.layout.is_writable(page)
    }

    /// Pages that cannot be read, one after the other: those between the heap and the stack, which are most of all.
    pub fn gap(&self) -> ops::Range<u32>
        ensures start { result.start
            ≡ min (heap_page (live self.now.file) + self.now.heap) pages_below }
        ensures end { result.end ≡ max (argument_page / 4096 - self.now.stack) result.start }
        ensures low { result.end ≤ 524288 }
        ensures ordered { result.start ≤ result.end }
        ensures unused { (page : ℕ) → result.start ≤ page → page < result.end
            → readable self.now page ≡ false }
    {
        self.layout.gap()
    }

    /// The byte at an address, where its page can be read.
    #[tactic(auto, unfolding(elf_definition::specs::Start::image_of, elf_definition::specs::Start::start_byte))]
    pub fn byte(&self, at: u32) -> Option<u8>
        ensures { result ≡ (image_of self.now).memory.byte at }
    {
        if self.readable(at / 4096) {
            Some(self.table.byte_at(at))
        } else {
            None
        }
    }

    /// The 1,024 words of a page of the segments that holds a byte that is not 0, in the order of their addresses. The most
    /// significant byte of each has its lowest address, in a program of either order.
    pub fn page(&self, page: u32) -> Option<&[u32]>
        ensures filled { is_some result ≡ is_filled_page self.now.file (live self.now.file) page }
        ensures len { IfSome result (λ words. length words.now ≡ 1024) }
        ensures words { IfSome result (λ words. (k : ℕ) → k < 1024
            → slice_index words.now k
            ≡ stored_word self.now.file (live self.now.file) (4096 * page + 4 * k)) }
    {
        self.table.page(page)
    }

    /// How many pages can be read.
    #[tactic(auto, unfolding(elf_definition::specs::Start::image_of))]
    pub fn mapped(&self) -> u32
        ensures sum { result ≡ (image_of self.now).mapped }
        ensures count { result ≡ count_below (readable self.now) pages_below }
    {
        self.mapped
    }

    /// The first address of the heap.
    #[tactic(auto, unfolding(elf_definition::specs::Start::image_of))]
    pub fn heap_start(&self) -> u32
        ensures { result ≡ (image_of self.now).heap_start }
    {
        4096 * self.layout.heap_first
    }

    /// The length of the heap in bytes.
    #[tactic(auto, unfolding(elf_definition::specs::Start::image_of))]
    pub fn heap_bytes(&self) -> u32
        ensures { result ≡ (image_of self.now).heap_bytes }
    {
        4096 * self.layout.heap
    }

    /// Does nothing. It tells which bytes the words of an image are; that its pages and its code end below 80000000 (hexadecimal);
    /// that they are not too many, and that it has code; and that each run of this is whole, without a word of the floating-point coprocessor.
    pub fn laws(&self)
        ensures lanes { (at : ℕ)
            → lane_of_word (stored_word self.now.file (live self.now.file) (4 * (at / 4))) (at % 4)
            ≡ stored_byte self.now.file (live self.now.file) at }
        ensures zeros { (at : ℕ) → is_filled_page self.now.file (live self.now.file) (at / 4096)
            ≡ false → stored_byte self.now.file (live self.now.file) at ≡ 0 }
        ensures pages { (page : ℕ) → 524288 ≤ page → readable self.now page ≡ false }
        ensures code { (at : ℕ) → 2 ^ 31 ≤ at → area self.now.file at ≡ false }
        ensures mapped { (image_of self.now).mapped ≤ 65_536 }
        ensures words { (code : List Range) → IsRunsOf (area self.now.file) code
            → code_words code ≤ 1_048_576 }
        ensures runs { (code : List Range) → IsRunsOf (area self.now.file) code → length code ≤ 64 }
        ensures some { (code : List Range) → IsRunsOf (area self.now.file) code → 1 ≤ length code }
        ensures whole { (code : List Range) → IsRunsOf (area self.now.file) code
            → All (IsWholeRange (image_of self.now).code) code }
    {
        self.table.words_fit();
    }
}

/// Whether an address is in one of the ranges.
fn has_address(code: &[Range], at: u32) -> bool
    ensures { result ≡ list_any (has_address at) code.now }
{
    code.iter()
        .any(|range| range.first <= at && u64::from(at) < range.end())
}
