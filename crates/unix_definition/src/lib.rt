//! The definition of the system that answers the calls of a guest program: files, descriptors, console, heap and arguments.
#![tactic(auto)]

mod description;
mod heap;
mod opened;
mod target;

pub use description::Description;
pub use heap::Heap;
pub use opened::Opened;
pub use target::Target;
