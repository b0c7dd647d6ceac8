//! Code that is emitted, as a list of steps: it knows no offsets until it is laid down in a method, and what it does is known from the
//! list alone.
#![tactic(auto)]

pub mod laws;
mod sizes;
mod step;
mod widths;

pub use sizes::code_size;
pub use step::Step;
pub use widths::{lies_from, width};
