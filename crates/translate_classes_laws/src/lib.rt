//! What emitted code names, and which numbers the fields and methods of classes have once they are linked. Each law is the contract of a
//! call that does nothing.
#![tactic(auto)]

pub mod linked_numbers;
pub mod named_code;
