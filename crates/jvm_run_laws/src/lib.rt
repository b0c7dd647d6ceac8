//! That a program whose fields are reset begins afresh, whatever runs before have left of the heap,
//! since what it does never depends on where its arrays are.
#![tactic(auto)]

pub mod laws;
