//! The parts of an image that classes are made of: the ranges of its code as units, with the words at which blocks begin; and its pages as
//! runs of pages that follow each other, with the runs as texts of class files.
#![tactic(auto)]

mod code;
mod page_run;
mod run_texts;
mod runs;
mod words;

pub use code::{RangeCode, range_code};
pub use page_run::PageRun;
pub use run_texts::run_text;
pub use runs::page_runs;

/// Out of memory, the one error of this crate.
pub type NoMemory = std::alloc::AllocError;
