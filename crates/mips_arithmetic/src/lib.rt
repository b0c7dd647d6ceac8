//! What the instructions that compute give, from words and immediates alone. Words have 32 bits, and are signed in two's complement where an
//! instruction takes them so. No call takes memory.
#![tactic(auto)]

mod results;

pub use results::{
    arithmetic, arithmetic_immediate, extended, logical_immediate, product, shift, variable_shift,
};
