//! Constant pools with the entries that tables of frames name (JVM Specification, Java SE 7 edition, 4.7.4).
#![tactic(auto)]

mod copies;
mod growing;
mod laws;
mod slots;

pub use growing::framed_pool;
pub use laws::framed_pools_are_sound;
pub use slots::reference_slots;
