//! What holds of ELF files that are written, assembled and read.
#![tactic(auto)]

pub mod laws;
