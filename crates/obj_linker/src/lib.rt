//! Links relocatable objects of a MIPS compiler to a program (System V ABI, "Object Files"; MIPS psABI).
#![tactic(auto)]

mod cursors;
mod entry;
mod group;
mod image;
mod layout;
mod letter;
mod linker;
mod lower_halves;
mod meaning;
mod name;
mod name_place;
mod name_table;
mod named_symbol;
mod named_symbols;
mod names;
mod pairs;
mod placing;
mod program;
mod reach;
mod relocated;
mod resolving;
mod site;
mod sites;
mod stretch;
mod texts;

pub use elf_definition::ObjFault;
pub use linker::link_objects;
pub use obj_reader::{ObjError, first_too_large};
