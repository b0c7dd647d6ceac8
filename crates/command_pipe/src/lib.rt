//! The command `pipe`: sets of classes run in turns, where what one writes to output is the next one's input.
#![tactic(auto)]

mod launch;
mod loading;
mod piping;

pub use launch::PipeLaunch;
pub use piping::pipe;
