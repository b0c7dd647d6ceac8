//! The files of a small disk: names, nodes, and bytes in chains of blocks.
#![tactic(auto)]

mod chain;
mod disk;
mod name;
mod store;

pub use chain::{BLOCK, Chain, blocks_for};
pub use disk::{Disk, Entry};
pub use name::{LONGEST_NAME, Name};
pub use store::{NoMemory, Store};
