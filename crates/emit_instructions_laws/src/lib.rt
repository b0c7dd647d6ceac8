//! The code of each instruction, unit and piece follows the guest, and what it counts. Each law is the contract of a call that does
//! nothing.
#![tactic(auto)]

pub mod access_laws;
pub mod instruction_laws;
pub mod laws;
pub mod piece_laws;
pub mod unit_counts;
pub mod unit_laws;
