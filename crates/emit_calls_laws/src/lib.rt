//! What fields and arrays hold where a translated program calls the system. Each law is the contract of a call that does nothing.
#![tactic(auto)]

pub mod laws;
pub mod turn_laws;

pub use emit_loading_laws::laws::programs_load;
