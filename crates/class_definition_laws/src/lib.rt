//! What holds of all class files: one spelling of each class, and one class of each spelling. Each law is the contract of a call that does
//! nothing.
#![tactic(auto)]

pub mod class_file_laws;
pub mod framed_laws;

pub use class_definition::FramedClass;
pub use class_format::{STACK_MAP_TABLE, table_slot_of};
