//! The code that takes a guest's turns off a meter, before the code of each unit, and ends the run where there are not enough left.
#![tactic(auto)]

mod guards;
pub mod laws;
mod likely;

pub use guards::{LEFT, SPENT, append_counted, append_guard};

/// Out of memory, the one error of this crate.
pub type NoMemory = std::alloc::AllocError;
