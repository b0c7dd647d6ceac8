//! Reads ELF32 files of MIPS programs (System V ABI, "Object Files").
#![tactic(auto)]

mod area_checks;
mod code_area;
mod elf;
mod elf_error;
mod fault;
mod fields;
mod header_checks;
mod headers;
mod overlap;
mod reach;
mod section_checks;
mod segment_checks;
mod span;

pub use elf::{Elf, read_elf};
pub use elf_definition::{ElfFault, ElfHeader, Range, Segment};
pub use elf_error::ElfError;
pub use fields::{half, order_of, word};
pub use header_checks::has_magic;
pub use headers::header_at_start;
