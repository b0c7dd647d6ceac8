//! The values that words of the command line give: names of classes, how many bytes a method may have, how many a pipe holds, how many
//! words the arrays of a class machine, and how many instructions a meter allows.
//!
//! Each is made where it is read, by a call that is itself the test, so that what takes one need not ask.
#![tactic(auto)]

mod characters;
mod class_name;
mod meter_turns;
mod method_bytes;
mod pipe_bytes;
mod region_words;

pub use characters::is_digit;
pub use class_name::ClassName;
pub use meter_turns::MeterTurns;
pub use method_bytes::MethodBytes;
pub use pipe_bytes::PipeBytes;
pub use region_words::RegionWords;
