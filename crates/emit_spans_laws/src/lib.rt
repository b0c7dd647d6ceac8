//! What the method of a span does: from its beginning to the code of a word, from there to where it goes on, and unit by unit; and how often
//! its pieces read and write the fields of registers. Each law is the contract of a call that does nothing.
#![tactic(auto)]

pub mod laws;
pub mod piece_registers;
pub mod span_steps;

pub use emit_instructions_laws::unit_counts::{pcs_are_words, units_are_counted, units_make_steps};
pub use emit_simulation_laws::unit_laws::units_are_lawful;
