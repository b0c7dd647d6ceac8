//! Pipelines: class sets on systems of their own run in turns, and what one writes to output is the next one's input, through a pipe.
#![tactic(auto)]

mod dropped;
mod errors;
mod executed;
mod execution;
mod inlet;
pub mod laws;
mod net;
mod net_fault;
mod outlet;
mod pipe;
mod piped;
mod readiness;
mod rounds;
mod serving;
mod stage;
mod terms;
mod turn;

pub use net::Net;
pub use net_fault::NetFault;
use std::alloc::AllocError;
pub use turn::Turn;

/// Memory ran out.
pub type NoMemory = AllocError;
