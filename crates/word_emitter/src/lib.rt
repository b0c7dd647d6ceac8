//! The code of the words of a span: warm code of whole pieces over local variables, and where code goes on after a unit.
#![tactic(auto)]

mod exits;
mod extent;
mod pieces;
mod registers;

pub use block_builder::direct;
pub use exits::append_exit;
pub use extent::Extent;
pub use pieces::append_warm;

/// Out of memory, the one error of what appends code.
pub type NoMemory = std::alloc::AllocError;
