//! The outside of a program: where it reads bytes, where it writes them, and where its files lie.
//!
//! Each trait tells its content where it can, and counts its faults: a call fails only if the count rose.
#![tactic(auto)]

mod calls;
mod failed;
mod file_shelf;
mod mem_shelf;
mod mem_sink;
mod mem_source;
mod shelf;
mod shelf_error;
mod sink;
mod source;
mod std_sink;
mod std_source;

pub use failed::Failed;
pub use file_shelf::FileShelf;
pub use mem_shelf::MemShelf;
pub use mem_sink::MemSink;
pub use mem_source::MemSource;
pub use shelf::Shelf;
pub use shelf_error::ShelfError;
pub use sink::{Sink, write_all};
pub use source::Source;
use std::alloc::AllocError;
pub use std_sink::StdSink;
pub use std_source::StdSource;

/// Memory ran out.
pub type NoMemory = AllocError;
