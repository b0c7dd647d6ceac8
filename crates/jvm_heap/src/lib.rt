//! The arrays of the class machine in a region (JVM Specification, 2.4 and 2.11.5), and the memory that a call of the system sees.
#![tactic(auto)]

mod access;
mod cell;
mod heap;
mod instructions;

pub use heap::Heap;
