//! Numbered blocks of 4,096 bytes for the files of a small disk, in memory that is taken once.
#![tactic(auto)]

mod block;
mod pool;

pub use block::Block;
pub use pool::{Blocks, NoBlock, NoMemory};
