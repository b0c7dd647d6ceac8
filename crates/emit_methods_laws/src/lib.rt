//! The code of each method that is emitted names only what is there, and can be made into the bytes of a method. Each law is the contract
//! of a call that does nothing.
#![tactic(auto)]

pub mod named_code;
pub mod whole;
