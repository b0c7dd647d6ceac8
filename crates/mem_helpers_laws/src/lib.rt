//! What the helper methods do: those that load, and those that store, multiply and divide. Each law is the contract of a call that does
//! nothing.
#![tactic(auto)]

pub mod load_laws;
pub mod store_laws;
