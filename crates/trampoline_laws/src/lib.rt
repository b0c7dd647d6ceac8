//! Which method a translated program chooses for an address, and what the methods do that choose. Each law is the contract of a call that
//! does nothing.
#![tactic(auto)]

pub mod choice_laws;
pub mod laws;
