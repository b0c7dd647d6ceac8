//! Linking: what the names in classes mean, and the program that classes are (JVM Specification, 5.4).
#![tactic(auto)]

mod constants;
mod fields;
mod instructions;
mod kinds;
mod linked;
mod linking;
mod methods;
mod parameters;
mod pool_instructions;
mod run;

pub use class_names::{LinkError, LinkFault, NoMemory};
pub use linked::Linked;
pub use linking::link;
