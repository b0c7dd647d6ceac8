//! The commands of `nested`, over any shelf of files, source of input and sinks of output.
#![tactic(auto)]

mod laws;
mod program;

pub use command_deeds::{Done, status};
pub use laws::{
    frames_are_checked, go_is_complete, refusals_leave_all, runs_take_no_memory,
    translations_run_by_name,
};
pub use program::nested;
