//! Arrays of words in one block of memory that is taken once, for a machine that makes arrays and ends the last ones.
#![tactic(auto)]

pub mod laws;
mod region;

pub use region::{Full, Mark, NoMemory, Place, Region};
