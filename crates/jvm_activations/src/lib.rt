//! The frames of the class machine, with their operand stacks and local variables (JVM Specification, 2.6), and the instructions that
//! work on these alone (2.11). Only `new` takes memory.
#![tactic(auto)]

mod branching;
mod callee;
mod computing;
mod frame;
mod frames;
mod int_words;
mod locals;
mod long_words;
mod operands;
mod shuffling;
mod switching;
mod trap;
mod waiting;

pub use callee::Callee;
pub use frame::Frame;
pub use frames::Frames;
pub use int_words::{byte_of, int_result, int_shifted, short_of};
pub use locals::Locals;
pub use operands::{NoMemory, Operands};
pub use switching::keys_rise;
pub use trap::Trap;
pub use waiting::Waiting;
