//! The two orders of the bytes of a word in memory.
ghost use Rattle.std.specs.Prelude.{◌≡◌};
ghost use Rattle.mips_definition.specs.Memory.{word_of_lanes};
ghost use Rattle.mips_definition.specs.Step.{order_number};

use nv_words::Order;

/// The word that four bytes of memory are in an order, given as lanes, lane 0 (the most significant byte) at the lowest address.
/// It is its own inverse.
#[inline]
pub fn word_of_lanes(order: Order, lanes: u32) -> u32
    ensures { result ≡ word_of_lanes order lanes }
{
    match order {
        Order::Big => lanes,
        Order::Little => lanes.swap_bytes(),
    }
}

/// How the loader's call tells an order: 0 is big-endian, 1 is little-endian.
pub fn order_number(order: Order) -> u32
    ensures { result ≡ order_number order }
{
    match order {
        Order::Big => 0,
        Order::Little => 1,
    }
}
