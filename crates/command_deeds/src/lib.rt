//! What every command of the program has in common: how it ends and the line that says so, its deeds, the loading and
//! storing of whole files; and the run of any machine: its system made ready with arguments and files, the run, and the
//! files that are kept.
#![tactic(auto)]

mod alone;
mod digits;
mod done;
mod ending;
mod files;
mod keeping;
mod launch;
mod line;
mod no_input;
mod no_output;
mod outcomes;
mod outside;
mod playing;
mod readying;
mod stage_outcomes;
pub mod status;
mod stop;

pub use alone::{BLOCKS, play_alone};
pub use digits::{decimal_long, hexadecimal};
pub use done::Done;
pub use ending::Ending;
pub use files::{load, store};
pub use launch::Launch;
pub use line::{write_line, write_number, write_pieces, write_text};
pub use outside::Outside;
pub use playing::{play_for, play_session};
pub use readying::ready;
pub use stage_outcomes::StageOutcomes;
pub use stop::Stop;
