//! What holds of all runs of linked programs: code runs wherever it lies, typed programs are safe. Each law is the contract of a call that does nothing.
#![tactic(auto)]

pub mod safety_laws;
pub mod step_laws;
