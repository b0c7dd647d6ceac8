//! Divides the code of a class into methods of a limited size, into as few as there can be, and things into shares of one size.
#![tactic(auto)]

mod cutting;
mod share;
pub mod share_laws;
mod span;

pub use cutting::cut;
pub use share::{Share, share_at, share_count, shared};
pub use span::Span;
