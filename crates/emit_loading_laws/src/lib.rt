//! From the start of a program to where the guest has begun: what the methods that make and fill pages do. Each law is the contract of a
//! call that does nothing.
#![tactic(auto)]

pub mod filling_laws;
pub mod laws;
