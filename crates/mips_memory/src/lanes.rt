//! The loads and stores that need no alignment: what a register, or the word in memory, becomes.
ghost use Rattle.std.specs.Prelude.{◌≡◌, ℕ, ◌<◌, ◌-◌, Some};
ghost use Rattle.run_definition.specs.Words.{lane_of_word};
ghost use Rattle.run_definition.specs.declared.order.Order.TheVariants.{Big};
ghost use Rattle.mips_definition.specs.Memory.{left_part, right_part, merged};
ghost use Rattle.mips_definition.specs.Loads.{memory_stored};
ghost use Rattle.mips_memory.specs.OneWord.{one_word};

use mips_decode::{StoreName, word_of_lanes};
use nv_words::Order;

/// What a register holds after LWL from byte `place` of a word.
#[inline(always)]
pub(crate) fn left(order: Order, word: u32, place: u32, old: u32) -> u32
    requires { place < 4 }
    ensures { result ≡ merged (one_word word) (left_part order place) old }
{
    match order {
        Order::Big => from_on(word, place, old),
        Order::Little => from_on(word_of_lanes(Order::Little, word), 3 - place, old),
    }
}

/// What a register holds after LWR from byte `place` of a word.
#[inline(always)]
pub(crate) fn right(order: Order, word: u32, place: u32, old: u32) -> u32
    requires { place < 4 }
    ensures { result ≡ merged (one_word word) (right_part order place) old }
{
    match order {
        Order::Big => up_to(word, place, old),
        Order::Little => up_to(word_of_lanes(Order::Little, word), 3 - place, old),
    }
}

/// What a word becomes by SWL of `w` to its byte `place`.
#[inline(always)]
pub(crate) fn with_left(order: Order, word: u32, place: u32, w: u32) -> u32
    requires { place < 4 }
    ensures { (j : ℕ) → j < 4 → (memory_stored StoreName.Swl order (one_word word) place w).byte j
        ≡ Some (lane_of_word result j) }
{
    match order {
        Order::Big => up_to(w, 3 - place, word),
        Order::Little => from_on(word_of_lanes(Order::Little, w), 3 - place, word),
    }
}

/// What a word becomes by SWR of `w` to its byte `place`.
#[inline(always)]
pub(crate) fn with_right(order: Order, word: u32, place: u32, w: u32) -> u32
    requires { place < 4 }
    ensures { (j : ℕ) → j < 4 → (memory_stored StoreName.Swr order (one_word word) place w).byte j
        ≡ Some (lane_of_word result j) }
{
    match order {
        Order::Big => from_on(w, 3 - place, word),
        Order::Little => up_to(word_of_lanes(Order::Little, w), 3 - place, word),
    }
}

/// The bytes of a word from `place` on, and then the last bytes of the other.
#[inline(always)]
fn from_on(word: u32, place: u32, other: u32) -> u32
    requires { place < 4 }
    ensures { result ≡ merged (one_word word) (left_part Big place) other }
{
    match place {
        0 => word,
        1 => (word << 8) + other % 0x100,
        2 => (word << 16) + other % 0x1_0000,
        _ => (word << 24) + other % 0x100_0000,
    }
}

/// The first bytes of the other, and then the bytes of a word up to `place`.
#[inline(always)]
fn up_to(word: u32, place: u32, other: u32) -> u32
    requires { place < 4 }
    ensures { result ≡ merged (one_word word) (right_part Big place) other }
{
    match place {
        0 => (other >> 8 << 8) + (word >> 24),
        1 => (other >> 16 << 16) + (word >> 16),
        2 => (other >> 24 << 24) + (word >> 8),
        _ => word,
    }
}
