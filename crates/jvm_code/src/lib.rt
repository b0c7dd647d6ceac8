//! The code of methods: instructions, as they are made and as they are read (JVM Specification, 4.7.3 and 6.5).
#![tactic(auto)]

mod code_error;
mod code_reading;
mod decode;
mod encode;
mod instruction_reading;
mod instruction_writing;
mod marks;
mod names;
mod number_writing;
mod opcode;
mod opcodes;
mod reading;
mod sizes;
mod switch_reading;
mod switch_writing;
mod target_writing;

pub use class_definition::{
    Class, CodeFault, Iconst, Line, LocalName, Member, Method, Op, PoolName, ShortIndex,
};
pub use code_error::CodeError;
pub use decode::decode_ops;
pub use encode::{NoMemory, encode_ops};
pub use sizes::size;
