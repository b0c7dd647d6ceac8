//! Paths of the class machine through code: how many turns they take, what these count, and where they are made; and what is counted of the
//! runs of the guest machine and of the class machine.
#![tactic(auto)]

pub mod count_laws;
pub mod laws;
