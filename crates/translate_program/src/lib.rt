//! The classes of a program as files, and what a translation is.
#![tactic(auto)]

mod block_info;
mod bounds;
mod built;
mod code_files;
pub mod code_laws;
mod code_layout;
mod coding;
mod counting;
mod data_files;
mod layout;
mod main_file;
mod named_file;
mod one_file;
mod pages;
mod parts;
mod ranges;
mod span_info;
mod spans;
mod taking;
mod told_blocks;
mod translation;

pub use block_info::BlockInfo;
pub use bounds::{allow, meter_allow, need};
pub use built::Built;
pub use layout::Layout;
pub use named_file::NamedFile;
pub use span_info::SpanInfo;
pub use translation::{translate, translate_files, translate_files_metered, translate_metered};

/// Out of memory, the one error of this crate.
pub type NoMemory = std::alloc::AllocError;
