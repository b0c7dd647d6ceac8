//! What emitted code takes of a class: the bytes of the method of a span, told before its code is there, and slots of the constant pool.
#![tactic(auto)]

mod exits;
mod instructions;
mod registers;
pub mod size_laws;
pub mod slot_laws;
pub mod weight_laws;
mod weights;

pub use weights::{weight, weight_of};
