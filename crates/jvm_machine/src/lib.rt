//! The class machine (JVM Specification, 2.5, 2.6, 2.11 and 6.5): runs linked and verified classes over a server that answers their calls.
#![tactic(auto)]

mod jvm;
mod loading;
mod room;

pub use jvm::Jvm;
pub use loading::NoMemory;
