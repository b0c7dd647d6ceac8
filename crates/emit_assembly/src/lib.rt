//! From steps, which know no offsets, to the operations of a class file, with their constants in its pool (JVM Specification, 4.4
//! and 6.5).
#![tactic(auto)]

mod assembly;
mod constants;
mod eligible;
mod ends;
mod fitting;
mod instructions;
pub mod laws;
mod locals;
mod methods;
mod references;
mod starts;
mod steps;

pub use assembly::assemble;
pub use fitting::is_code;
pub use methods::method_code;
pub use references::References;
