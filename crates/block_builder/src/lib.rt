//! Basic blocks: which words of code are done one after the other, and the registers that they read and write.
#![tactic(auto)]

mod block;
mod builder;
mod laws;
mod leaders;
mod registers;
mod targets;

pub use block::Block;
pub use builder::{NoMemory, blocks, ends, part, words_from};
pub use laws::{instructions_keep_to_their_registers, register_sets_have_their_bits};
pub use leaders::leader_flags;
pub use registers::{read_by, unit_reads, unit_writes, written_by};
pub use targets::{direct, is_plain, words_of};
