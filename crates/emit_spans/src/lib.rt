//! The method of a span: a switch over its words, the warm code of its pieces, and the code of each other word.
#![tactic(auto)]

mod body;
mod laid;
pub mod laws;
mod locals;
mod method;
mod neighbours;
mod opening;
mod parts;
mod pieces;
mod placing;
mod span_error;
mod span_words;
mod stretch;
mod targets;

pub use method::{SpanMethod, span_method};
pub use span_error::SpanError;
pub use stretch::Stretch;

/// Out of memory.
pub(crate) type NoMemory = std::alloc::AllocError;
