//! Choosing a method by an address: trees of comparisons over the addresses at which methods' parts of the code begin, and the methods
//! that follow them.
#![tactic(auto)]

mod choosers;
mod start;
mod trees;

pub use choosers::{append_class_chooser, append_main_chooser, append_missing};
pub use start::Start;
pub use trees::NoMemory;
