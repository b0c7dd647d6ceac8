//! What the guards of units do. Each law is the contract of a call that does nothing.
#![tactic(auto)]

pub mod laws;
