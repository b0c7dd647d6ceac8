//! The code that is emitted is typed: steps, instructions, units and pieces, and the methods that are made of them. Each law is the
//! contract of a call that does nothing.
#![tactic(auto)]

pub mod laws;
pub mod typed_methods;
pub mod typed_spans;
pub mod typed_steps;
