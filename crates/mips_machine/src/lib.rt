//! The guest machine: a MIPS II processor in user mode, its memory, and its run over a server.
#![tactic(auto)]

mod accessing;
mod branching;
mod computing;
mod course;
mod execute;
mod executed;
mod frequent;
mod linking;
mod mips;
mod moving;
mod onward;
mod processor;
mod registers;
mod step;
mod stretch;
mod trapping;
mod tried;
mod turning;

pub use mips::Mips;
pub use step::Step;
