//! A translated program runs as its guest: from each turn to the next, from the first to any number, and what is counted on the way. Each
//! law is the contract of a call that does nothing.
#![tactic(auto)]

pub mod choice_passes;
pub mod entered_laws;
pub mod laws;
pub mod turn_laws;

pub use emit_loading_laws::laws::{images_are_pages, loading_takes, shares_tell_runs};
pub use emit_spans_laws::laws::{
    pieces_are_made, pieces_follow, spans_are_entered, stretches_are_of_pieces,
};
pub use emit_spans_laws::piece_registers::lines_of_pieces_read_and_write_registers_once;
pub use emit_spans_laws::units_are_lawful;
pub use trampoline_laws::laws::spans_are_numbered;
