//! The command `link`: objects of a compiler become a program.
#![tactic(auto)]

mod linking;
mod loading;

pub use linking::link;
