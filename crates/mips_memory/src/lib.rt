//! The memory of a guest program, in pages of 4,096 bytes, and its code, in chunks of 1 MiB.
#![tactic(auto)]

mod accesses;
mod alignment;
mod chunking;
mod code;
mod code_loader;
mod forms;
mod lanes;
mod memory;
mod memory_loader;
mod op;
mod page;
mod paging;

pub use alignment::{is_load_aligned, is_store_aligned};
pub use chunking::CHUNK_BYTES;
pub use code::Code;
pub use code_loader::load_code;
pub use memory::{GuestMemory, NoMemory};
pub use memory_loader::load_memory;
pub use op::Op;
