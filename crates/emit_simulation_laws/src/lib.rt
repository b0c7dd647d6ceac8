//! When code follows the guest, wherever it lies: when arrays hold its memory, states that are held over a bank of registers, and what calls
//! of methods come to. Each law is the contract of a call that does nothing.
#![tactic(auto)]

pub mod laws;
pub mod memory_laws;
pub mod register_laws;
pub mod unit_laws;
