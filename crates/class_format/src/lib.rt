//! How the parts of a class file are spelled and read (JVM Specification, 4): one description for both directions.
#![tactic(auto)]

mod failure;
mod fields;
mod table_name;

pub use class_definition::{ClassFault, Miss};
pub use failure::Failure;
pub use fields::{
    byte_of, exact_byte_of, exact_half_of, exact_word_of, fault_of, half_of, long_of, missed,
    raw_of, signed_byte_of, signed_half_of, signed_long_of, signed_word_of, word_of,
};
pub use table_name::{STACK_MAP_TABLE, table_slot_of};
