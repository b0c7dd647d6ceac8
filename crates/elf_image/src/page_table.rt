ghost use Rattle.std.specs.Prelude.{◌≡◌, ℕ, ◌+◌, ◌*◌, ◌%◌, ◌^◌, ◌<◌, ◌≤◌, ◌==◌, not, All, length, slice_index, is_some, IfOk, IfSome};
ghost use Rattle.elf_reader.specs.Answer.{IsSound};
ghost use Rattle.elf_definition.specs.Header.{order_of};
ghost use Rattle.elf_definition.specs.Content.{stored_byte, stored_word, stored_code_word, is_filled_page};
ghost use Rattle.elf_image.specs.PageTable.{marked, table_word, table_byte};

use crate::contents::Contents;
use crate::page_marks::{count_marks, numbers};
use crate::store::stored_words;
use elf_reader::{Segment, order_of};
use mips_decode::word_of_lanes;
use nv_words::{Order, lane};
use std::alloc::{AllocError, Global};
use std::snapshot::Snapshot;

/// The words of the segments, kept for the pages that are not all zero.
#[derive(Drop)]
pub struct PageTable {
    /// The file, which only clauses read.
    pub file: Contents,
    /// The live segments, which only clauses read.
    pub segments: Snapshot<Vec<Segment>>,
    /// The order of the bytes of the file's numbers.
    pub order: Order,
    /// For each page which of the stored pages it is, counted from 1; 0 where it is all zero.
    index: Vec<u32>,
    /// The words of the stored pages, one page after the other.
    stored: Vec<u32>,
    ghost order_is: { order ≡ order_of file.bytes },
    ghost words: { (k : ℕ) → table_word index.items stored.items k
        ≡ stored_word file.bytes segments.value.items (4 * k) },
    ghost bytes: { (at : ℕ) → table_byte index.items stored.items at
        ≡ stored_byte file.bytes segments.value.items at },
    ghost filled: { (page : ℕ) → not (slice_index index.items page == 0)
        ≡ is_filled_page file.bytes segments.value.items page },
    ghost room: { (page : ℕ) → 1024 * slice_index index.items page ≤ length stored.items },
}

impl PageTable {
    /// The words of the segments of a file whose headers passed the checks, given which pages hold a byte that is not 0.
    pub fn new(
        alloc: Global,
        file: &[u8],
        segments: &Vec<Segment>,
        filled: &[bool],
    ) -> Result<PageTable, AllocError>
        requires sound { All (IsSound (length file.now)) segments.now.items }
        requires len { length filled.now ≤ 524288 }
        requires filled { (page : ℕ) → marked filled.now page
            ≡ is_filled_page file.now segments.now.items page }
        ensures file { IfOk result (λ table. table.file.bytes ≡ file.now) }
        ensures segments { IfOk result (λ table. table.segments.value.items ≡ segments.now.items) }
    {
        let index = numbers(alloc, filled)?;
        let count = count_marks(filled);
        let stored = stored_words(alloc, file, segments.as_slice(), index.as_slice(), count)?;
        words_fit(stored.as_slice());
        Ok(PageTable {
            file: Contents::of(file),
            segments: Snapshot::of(segments),
            order: order_of(file),
            index,
            stored,
        })
    }

    /// Which of the stored pages a page is, counted from 1; 0 where it is all zero.
    fn place(&self, page: u64) -> u32
        ensures { result ≡ slice_index self.now.index.items page }
    {
        self.index.get(page as usize).copied().unwrap_or(0)
    }

    /// The k-th word, which is at address 4 k.
    #[tactic(auto, unfolding(crate::specs::PageTable::table_word))]
    fn word(&self, k: u64) -> u32
        ensures { result ≡ table_word self.now.index.items self.now.stored.items k }
    {
        let place = self.place(k / 1024);
        if place == 0 {
            0
        } else {
            self.stored
                .get(1024 * (place as usize - 1) + (k % 1024) as usize)
                .copied()
                .unwrap_or(0)
        }
    }

    /// The instruction word at an address that is a multiple of 4, in the file's order.
    #[tactic(auto, unfolding(elf_definition::specs::Content::stored_code_word))]
    pub fn code_word(&self, at: u64) -> u32
        requires { at % 4 ≡ 0 }
        ensures { result ≡ stored_code_word self.now.file.bytes self.now.segments.value.items at }
    {
        word_of_lanes(self.order, self.word(at / 4))
    }

    /// The byte at an address.
    pub fn byte_at(&self, at: u32) -> u8
        ensures { result ≡ stored_byte self.now.file.bytes self.now.segments.value.items at }
    {
        lane(self.word(u64::from(at / 4)), at % 4)
    }

    /// Does nothing: a word has 32 bits.
    pub fn words_fit(&self)
        ensures { (k : ℕ) → stored_word self.now.file.bytes self.now.segments.value.items (4 * k)
            < 2 ^ 32 }
    {
        words_fit(self.stored.as_slice());
    }

    /// The words of a page that holds a byte that is not 0.
    pub fn page(&self, page: u32) -> Option<&[u32]>
        ensures filled { is_some result
            ≡ is_filled_page self.now.file.bytes self.now.segments.value.items page }
        ensures len { IfSome result (λ words. length words.now ≡ 1024) }
        ensures words { IfSome result (λ words. (k : ℕ) → k < 1024 → slice_index words.now k
            ≡ stored_word self.now.file.bytes self.now.segments.value.items (4096 * page + 4 * k)) }
    {
        let place = self.place(u64::from(page));
        if place == 0 {
            return None;
        }
        let first = 1024 * (place as usize - 1);
        Some(&self.stored.as_slice()[first..first + 1024])
    }
}

/// A word has 32 bits. (Only proofs read this.)
fn words_fit(_words: &[u32])
    ensures { (i : ℕ) → slice_index _words.now i < 2 ^ 32 }
{}
