//! The system as a program finds it: it answers all calls, over a source of input and two sinks; and the run of any
//! machine over it.
#![tactic(auto)]

mod access;
mod args;
mod begin;
mod console;
mod input;
mod joined;
pub mod laws;
pub mod numbers;
mod playing;
mod quiet;
mod read_ahead;
mod serving;
pub mod sides;
mod text;
mod unix;
mod unix_error;

pub use access::Access;
pub use args::Args;
pub use joined::Joined;
pub use playing::play;
pub use read_ahead::ReadAhead;
use std::alloc::AllocError;
pub use text::Text;
pub use unix::Unix;
pub use unix_error::UnixError;

/// Memory ran out.
pub type NoMemory = AllocError;
