//! The four bytes of a word, which are its lanes.
ghost use Rattle.std.specs.Prelude.{◌≡◌, ℕ, ◌==◌, ◌<◌, if◌then◌else◌};
ghost use Rattle.run_definition.specs.Words.{lane_of_word, lane_in_order, word_with_lane};

use run_definition::Order;

/// Lane i of a word, lane 0 the most significant byte.
pub fn lane(w: u32, i: u32) -> u8
    requires { i < 4 }
    ensures { result ≡ lane_of_word w i }
{
    (w >> (24 - 8 * i) & 0xff) as u8
}

/// The byte that the word has at the i-th address, in the given order.
pub fn lane_of(order: Order, w: u32, i: u32) -> u8
    requires { i < 4 }
    ensures { result ≡ lane_in_order order w i }
{
    match order {
        Order::Big => lane(w, i),
        Order::Little => lane(w, 3 - i),
    }
}

/// The word with its lane i replaced by b.
pub fn with_lane(w: u32, i: u32, b: u8) -> u32
    requires { i < 4 }
    ensures value { result ≡ word_with_lane w i b }
    ensures lanes { (k : ℕ) → k < 4 → lane_of_word result k
        ≡ (if k == i then b else lane_of_word w k) }
{
    let place = 24 - 8 * i;
    let old = u32::from(lane(w, i)) << place;
    let new = u32::from(b) << place;
    w - old + new
}
