//! The system that answers a guest program's calls: files in blocks, descriptors, console, heap and arguments.
#![tactic(auto)]

pub mod descriptor_calls;
pub mod errors;
pub mod file_calls;
pub mod guest;
pub mod heap_calls;
pub mod name_calls;
mod path;
mod piece;
pub mod status;

pub use path::{Path, byte_at, read_path};
pub use piece::Piece;
pub use unix_definition::{Description, Heap, Opened, Target};
