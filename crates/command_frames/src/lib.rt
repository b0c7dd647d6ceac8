//! The commands `frames` and `check`: sets of classes get tables of frames, and are checked by them (JVM Specification, Java SE 7
//! edition, 4.10.1).
#![tactic(auto)]

mod checking;
mod framed_sets;
mod laws;
mod stored_class;
mod storing;
mod tabling;
mod writing;

pub use checking::check;
pub use framed_sets::frames;
pub use laws::frames_are_determined;
