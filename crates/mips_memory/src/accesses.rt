//! Loads and stores over a list of bytes.
ghost use Rattle.std.specs.Prelude.{◌≡◌, ℕ, ◌+◌, ◌*◌, ◌/◌, ◌%◌, ◌≤◌, ◌<◌, IsTrue, length, slice_index};
ghost use Rattle.run_definition.specs.Words.{lane_of_word};
ghost use Rattle.mips_definition.specs.Memory.{half_at, word_at, with_half, with_word};
ghost use Rattle.mips_definition.specs.Arithmetic.{sign_extended};
ghost use Rattle.mips_definition.specs.Loads.{load_aligned, loaded_word, store_aligned, memory_stored};
ghost use Rattle.mips_memory.specs.ByteList.{memory_in};

use crate::lanes::{left, right, with_left, with_right};
use byteorder::{BigEndian, ByteOrder, LittleEndian};
use mips_decode::{LoadName, StoreName};
use nv_words::Order;

/// What a register holds after a load from place `at` of the bytes, by what it held before.
#[inline(always)]
pub(crate) fn from_bytes(name: LoadName, order: Order, bytes: &[u8], at: usize, old: u32) -> u32
    requires whole { at / 4 * 4 + 4 ≤ length bytes.now }
    requires aligned { IsTrue (load_aligned name at) }
    ensures { result ≡ loaded_word name order (memory_in bytes.now) at old }
{
    match name {
        LoadName::Lb => signed_byte(bytes[at]),
        LoadName::Lh => signed_half(half_from(order, bytes, at)),
        LoadName::Lwl => left(order, word_around(bytes, at), (at % 4) as u32, old),
        LoadName::Lw => word_from(order, bytes, at),
        LoadName::Lbu => u32::from(bytes[at]),
        LoadName::Lhu => u32::from(half_from(order, bytes, at)),
        LoadName::Lwr => right(order, word_around(bytes, at), (at % 4) as u32, old),
    }
}

/// Stores `w` to place `at` of the bytes.
#[inline(always)]
pub(crate) fn into_bytes(name: StoreName, order: Order, bytes: &mut [u8], at: usize, w: u32)
    requires whole { at / 4 * 4 + 4 ≤ length bytes.old }
    requires aligned { IsTrue (store_aligned name at) }
    ensures size { length bytes.new ≡ length bytes.old }
    ensures after { memory_in bytes.new ≡ memory_stored name order (memory_in bytes.old) at w }
{
    match name {
        StoreName::Sb => bytes[at] = (w % 0x100) as u8,
        StoreName::Sh => put_half(order, bytes, at, w),
        StoreName::Swl => {
            let word = with_left(order, word_around(bytes, at), (at % 4) as u32, w);
            put_word(Order::Big, bytes, at / 4 * 4, word);
        }
        StoreName::Sw => put_word(order, bytes, at, w),
        StoreName::Swr => {
            let word = with_right(order, word_around(bytes, at), (at % 4) as u32, w);
            put_word(Order::Big, bytes, at / 4 * 4, word);
        }
    }
}

#[inline(always)]
fn signed_byte(b: u8) -> u32
    ensures { result ≡ sign_extended 8 b }
{
    if b < 0x80 {
        u32::from(b)
    } else {
        u32::from(b) + 0xffff_ff00
    }
}

#[inline(always)]
fn signed_half(h: u16) -> u32
    ensures { result ≡ sign_extended 16 h }
{
    if h < 0x8000 {
        u32::from(h)
    } else {
        u32::from(h) + 0xffff_0000
    }
}

/// The half-word at a place.
#[inline(always)]
fn half_from(order: Order, bytes: &[u8], at: usize) -> u16
    requires { at + 2 ≤ length bytes.now }
    ensures { result ≡ half_at order (memory_in bytes.now) at }
{
    let half = &bytes[at..at + 2];
    match order {
        Order::Big => BigEndian::read_u16(half),
        Order::Little => LittleEndian::read_u16(half),
    }
}

/// The word at a place.
#[inline(always)]
fn word_from(order: Order, bytes: &[u8], at: usize) -> u32
    requires { at + 4 ≤ length bytes.now }
    ensures { result ≡ word_at order (memory_in bytes.now) at }
{
    let word = &bytes[at..at + 4];
    match order {
        Order::Big => BigEndian::read_u32(word),
        Order::Little => LittleEndian::read_u32(word),
    }
}

/// The word of the four bytes, from a multiple of 4 on, that a place is one of; the first is the most significant.
#[inline(always)]
fn word_around(bytes: &[u8], at: usize) -> u32
    requires { at / 4 * 4 + 4 ≤ length bytes.now }
    ensures { (j : ℕ) → j < 4 → slice_index bytes.now (4 * (at / 4) + j) ≡ lane_of_word result j }
{
    word_from(Order::Big, bytes, at / 4 * 4)
}

/// Puts the lower half of `w` at a place.
#[inline(always)]
fn put_half(order: Order, bytes: &mut [u8], at: usize, w: u32)
    requires { at + 2 ≤ length bytes.old }
    ensures size { length bytes.new ≡ length bytes.old }
    ensures after { memory_in bytes.new ≡ with_half order (memory_in bytes.old) at w }
{
    let half = &mut bytes[at..at + 2];
    match order {
        Order::Big => BigEndian::write_u16(half, (w % 0x1_0000) as u16),
        Order::Little => LittleEndian::write_u16(half, (w % 0x1_0000) as u16),
    }
}

/// Puts a word at a place.
#[inline(always)]
fn put_word(order: Order, bytes: &mut [u8], at: usize, w: u32)
    requires { at + 4 ≤ length bytes.old }
    ensures size { length bytes.new ≡ length bytes.old }
    ensures after { memory_in bytes.new ≡ with_word order (memory_in bytes.old) at w }
{
    let word = &mut bytes[at..at + 4];
    match order {
        Order::Big => BigEndian::write_u32(word, w),
        Order::Little => LittleEndian::write_u32(word, w),
    }
}

/// Puts words at a place, in big-endian order, up to the end of the bytes.
pub(crate) fn put_words(bytes: &mut [u8], at: usize, words: &[u32])
    requires { at + 4 * length words.now ≡ length bytes.old }
    ensures size { length bytes.new ≡ length bytes.old }
    ensures before { (k : ℕ) → k < at → slice_index bytes.new k ≡ slice_index bytes.old k }
    ensures words { (k : ℕ) → slice_index bytes.new (at + k)
        ≡ lane_of_word (slice_index words.now (k / 4)) (k % 4) }
{
    BigEndian::write_u32_into(words, &mut bytes[at..]);
}
