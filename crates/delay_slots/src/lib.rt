//! Delay slots: what happens when a word of code is entered with no branch pending, as one unit a word.
#![tactic(auto)]

mod builder;
mod laws;
mod range_units;
mod unit;

pub use builder::{NoMemory, units};
pub use laws::{unit_is_its_steps, unit_leads_on, unit_runs_over_systems};
pub use range_units::RangeUnits;
pub use unit::Unit;
