//! The turns of the class machine (JVM Specification, 2.6 and 2.11), one instruction at a time. The instructions of all methods are in one array,
//! in which branches name their targets by index.
#![tactic(auto)]

mod calling;
pub mod code_laws;
mod decoding;
mod ending;
mod executable;
mod host_words;
mod machine_code;
mod machine_method;
mod named;
mod retargeting;
mod search;
mod turning;

pub use decoding::{NoMemory, decode};
pub use executable::Executable;
pub use machine_code::MachineCode;
pub use machine_method::MachineMethod;
pub use named::named_locals;
pub use turning::{take_frequent, take_once, take_op, take_turn};
