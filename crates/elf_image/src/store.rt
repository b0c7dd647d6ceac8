//! The words of the pages that hold a byte that is not 0.
ghost use Rattle.std.specs.Prelude.{◌≡◌, ℕ, ◌+◌, ◌-◌, ◌*◌, ◌/◌, ◌<◌, ◌≤◌, ◌==◌, nat_le, nat_lt, ◌&&◌, if◌then◌else◌, All, length, slice_index, IfOk};
ghost use Rattle.elf_reader.specs.Answer.{IsSound};
ghost use Rattle.elf_definition.specs.Content.{is_in_file, file_byte, stored_byte};
ghost use Rattle.elf_image.specs.PageTable.{byte_in, table_byte};

use crate::filled::{first_on_page, page_behind_data, piece};
use elf_reader::Segment;
use nv_words::with_lane;
use std::alloc::{AllocError, Global};

/// Puts a byte at a place of words.
fn put_byte(words: &mut [u32], at: usize, byte: u8)
    requires { at < 4 * length words.old }
    ensures len { length words.new ≡ length words.old }
    ensures bytes { (j : ℕ) → byte_in words.new j
        ≡ (if j == at then byte else byte_in words.old j) }
{
    let place = at / 4;
    words[place] = with_lane(words[place], (at % 4) as u32, byte);
}

/// Puts bytes at a place of words, one after the other.
fn put_bytes(words: &mut [u32], first: usize, bytes: &[u8])
    requires { first + length bytes.now ≤ 4 * length words.old }
    ensures len { length words.new ≡ length words.old }
    ensures bytes { (j : ℕ) → byte_in words.new j
        ≡ (if nat_le first j && nat_lt j (first + length bytes.now)
        then slice_index bytes.now (j - first) else byte_in words.old j) }
{
    for (k, byte) in bytes.iter().enumerate() {
        put_byte(words, first + k, *byte);
    }
}

/// The number that a page has in an index.
fn number_of(index: &[u32], page: u32) -> u32
    ensures { result ≡ slice_index index.now page }
{
    index.get(page as usize).copied().unwrap_or(0)
}

/// Puts the bytes that a segment has in the file for a page, where that page is stored.
fn put_page(words: &mut [u32], index: &[u32], file: &[u8], segment: &Segment, page: u32)
    requires sound { IsSound (length file.now) segment.now }
    requires first { segment.now.vaddr / 4096 ≤ page }
    requires room { (p : ℕ) → 1024 * slice_index index.now p ≤ length words.old }
    requires distinct { (p q : ℕ) → slice_index index.now p ≡ slice_index index.now q
        → (slice_index index.now p ≡ 0 → ⊥) → p ≡ q }
    ensures len { length words.new ≡ length words.old }
    ensures bytes { (at : ℕ) → (slice_index index.now (at / 4096) ≡ 0 → ⊥)
        → table_byte index.now words.new at
        ≡ (if is_in_file at segment.now && at / 4096 == page
        then file_byte file.now at segment.now else table_byte index.now words.old at) }
{
    let number = number_of(index, page);
    if number != 0 {
        let past = first_on_page(segment, page) - 4096 * u64::from(page);
        put_bytes(
            words,
            4096 * (number as usize - 1) + past as usize,
            piece(file, segment, page),
        );
    }
}

/// Puts the bytes that a segment has in the file, where their pages are stored.
fn put_segment(words: &mut [u32], index: &[u32], file: &[u8], segment: &Segment)
    requires sound { IsSound (length file.now) segment.now }
    requires room { (p : ℕ) → 1024 * slice_index index.now p ≤ length words.old }
    requires distinct { (p q : ℕ) → slice_index index.now p ≡ slice_index index.now q
        → (slice_index index.now p ≡ 0 → ⊥) → p ≡ q }
    ensures len { length words.new ≡ length words.old }
    ensures bytes { (at : ℕ) → (slice_index index.now (at / 4096) ≡ 0 → ⊥)
        → table_byte index.now words.new at
        ≡ (if is_in_file at segment.now then file_byte file.now at segment.now
        else table_byte index.now words.old at) }
{
    for page in segment.vaddr / 4096..page_behind_data(segment) {
        put_page(words, index, file, segment, page);
    }
}

/// The words of the pages that have a number in `index`, in the order of these numbers.
///
/// The last segment comes first, so that where two hold an address the first one's byte stays.
pub fn stored_words(
    alloc: Global,
    file: &[u8],
    segments: &[Segment],
    index: &[u32],
    count: u32,
) -> Result<Vec<u32>, AllocError>
    requires sound { All (IsSound (length file.now)) segments.now }
    requires room { (p : ℕ) → slice_index index.now p ≤ count }
    requires distinct { (p q : ℕ) → slice_index index.now p ≡ slice_index index.now q
        → (slice_index index.now p ≡ 0 → ⊥) → p ≡ q }
    ensures len { IfOk result (λ words. length words.items ≡ 1024 * count) }
    ensures bytes { IfOk result (λ words. (at : ℕ) → (slice_index index.now (at / 4096) ≡ 0 → ⊥)
        → table_byte index.now words.items at ≡ stored_byte file.now segments.now at) }
{
    let mut words = vec![in alloc; 0u32; 1024 * count as usize]?;
    let all = segments.len();
    for done in 0..all {
        put_segment(words.as_mut_slice(), index, file, &segments[all - 1 - done]);
    }
    Ok(words)
}
