//! The classes that a command works on (JVM Specification, 5.3): a class is loaded by its name, and then those that loaded classes name; of version
//! 48.0, or of version 51.0 with their tables of frames.
#![tactic(auto)]

mod asked;
mod load;
mod loaded;
mod members;
mod name;
mod named_load;
mod named_reading;
mod named_set;
mod names;
mod reading;
mod version;

pub use load::load_set;
pub use loaded::Loaded;
pub use members::Members;
pub use name::Name;
pub use named_load::load_named_set;
pub use named_set::NamedSet;
pub use names::Names;
pub use reading::class_file;
pub use version::Version;
