//! A translated program with a meter runs as its guest for as many turns as are on it. Each law is the contract of a call that does nothing.
#![tactic(auto)]

pub mod field_laws;
pub mod laws;
pub mod slice_laws;
pub mod turn_laws;
