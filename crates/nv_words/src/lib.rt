//! Numbers in bytes, and words of 32 bits with their four bytes. No call takes memory.
#![tactic(auto)]

mod fields;
mod lanes;
mod sign;

pub use fields::{half_at, half_in, put_half, put_word, word_at, word_in};
pub use lanes::{lane, lane_of, with_lane};
pub use run_definition::Order;
pub use sign::{signed, unsigned};
