//! Writes ELF32 files of big-endian MIPS programs (System V ABI, "Object Files").
#![tactic(auto)]

mod fields;
mod limits;
mod place;
mod read_back;
mod tables;
mod writer;

pub use elf_definition::{Part, Parts, Sec};
pub use limits::is_writable;
pub use read_back::segments_read_back;
pub use writer::{NoMemory, write_elf};
