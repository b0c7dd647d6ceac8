//! Reads relocatable objects of a MIPS compiler (System V ABI, "Object Files"; MIPS psABI): their sections, symbols and relocations.
#![tactic(auto)]

mod fault;
mod header;
mod obj_error;
mod relocation;
mod relocations;
mod section;
mod sections;
mod size;
mod start;
mod symbol;
mod symbols;
mod tables;

pub use fault::refusal;
pub use obj_error::ObjError;
pub use relocation::{R_MIPS_26, R_MIPS_32, R_MIPS_HI16, R_MIPS_LO16, R_MIPS_NONE, Relocation};
pub use section::Section;
pub use size::first_too_large;
pub use start::Start;
pub use symbol::{SHN_ABS, SHN_UNDEF, Symbol};
pub use tables::{Tables, read_objects};
