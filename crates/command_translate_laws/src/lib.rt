//! What holds of the commands `translate` and `run` together.
#![tactic(auto)]

mod laws;

pub use laws::translations_run_by_name;
