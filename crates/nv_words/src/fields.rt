//! Half-words and words that are in a slice of bytes.
ghost use Rattle.std.specs.Prelude.{◌≡◌, ℕ, ◌+◌, ◌-◌, ◌<◌, ◌≤◌, ◌↔◌, length, slice_index, IsTrue, IsSome, IfSome, if◌then◌else◌};
ghost use Rattle.run_definition.specs.declared.order.Order.TheVariants.{Big};
ghost use Rattle.run_definition.specs.Words.{half_of_list, word_of_list, bytes_of_half, bytes_of_word, list_with};

use byteorder::{BigEndian, ByteOrder, LittleEndian};
use run_definition::Order;

/// The big-endian half-word at `at`; None exactly if it runs past the end.
pub fn half_at(b: &[u8], at: usize) -> Option<u16>
    ensures there { IsSome result ↔ (at + 2 ≤ length b.now) }
    ensures value { IfSome result (λ half. half ≡ half_of_list Big b.now at) }
{
    half_in(Order::Big, b, at)
}

/// The big-endian word at `at`; None exactly if it runs past the end.
pub fn word_at(b: &[u8], at: usize) -> Option<u32>
    ensures there { IsSome result ↔ (at + 4 ≤ length b.now) }
    ensures value { IfSome result (λ word. word ≡ word_of_list Big b.now at) }
{
    word_in(Order::Big, b, at)
}

/// The half-word at `at` in the given order; None exactly if it runs past the end.
pub fn half_in(order: Order, b: &[u8], at: usize) -> Option<u16>
    ensures there { IsSome result ↔ (at + 2 ≤ length b.now) }
    ensures value { IfSome result (λ half. half ≡ half_of_list order b.now at) }
{
    let bytes = field(b, at, 2)?;
    Some(match order {
        Order::Big => BigEndian::read_u16(bytes),
        Order::Little => LittleEndian::read_u16(bytes),
    })
}

/// The word at `at` in the given order; None exactly if it runs past the end.
pub fn word_in(order: Order, b: &[u8], at: usize) -> Option<u32>
    ensures there { IsSome result ↔ (at + 4 ≤ length b.now) }
    ensures value { IfSome result (λ word. word ≡ word_of_list order b.now at) }
{
    let bytes = field(b, at, 4)?;
    Some(match order {
        Order::Big => BigEndian::read_u32(bytes),
        Order::Little => LittleEndian::read_u32(bytes),
    })
}

/// Writes the half-word at `at`, big-endian; false, with nothing changed, exactly if it would run past the end.
pub fn put_half(b: &mut [u8], at: usize, v: u16) -> bool
    ensures fits { IsTrue result ↔ (at + 2 ≤ length b.old) }
    ensures after { b.new ≡ (if result then list_with b.old at (bytes_of_half v) else b.old) }
{
    if b.len() < 2 || b.len() - 2 < at {
        return false;
    }
    BigEndian::write_u16(&mut b[at..at + 2], v);
    true
}

/// Writes the word at `at`, big-endian; false, with nothing changed, exactly if it would run past the end.
pub fn put_word(b: &mut [u8], at: usize, v: u32) -> bool
    ensures fits { IsTrue result ↔ (at + 4 ≤ length b.old) }
    ensures after { b.new ≡ (if result then list_with b.old at (bytes_of_word v) else b.old) }
{
    if b.len() < 4 || b.len() - 4 < at {
        return false;
    }
    BigEndian::write_u32(&mut b[at..at + 4], v);
    true
}

// The n bytes from `at`, where they are there.
fn field(b: &[u8], at: usize, n: usize) -> Option<&[u8]>
    ensures there { IsSome result ↔ (at + n ≤ length b.now) }
    ensures len { IfSome result (λ bytes. length bytes.now ≡ n) }
    ensures bytes { IfSome result (λ bytes. (k : ℕ) → k < n
        → slice_index bytes.now k ≡ slice_index b.now (at + k)) }
{
    b.get(at..)?.get(..n)
}
