//! The helper methods of the main class: loads, stores, products and quotients over arrays of pages, in both orders of bytes.
#![tactic(auto)]

mod amount;
mod loads;
mod methods;
mod parts;
mod products;
mod stores;

pub use methods::{METHODS, append_helper};

/// Out of memory, the one error of what makes code.
pub type NoMemory = std::alloc::AllocError;
