//! Classes as bytes (JVM Specification, 4): of version 48.0, or of version 51.0 with their tables of frames.
#![tactic(auto)]

mod entry_writing;
mod error;
mod framed_write;
mod limits;
mod member_writing;
mod numbers;
mod write;

pub use class_definition::FramedClass;
pub use error::{NoMemory, WriteError};
pub use framed_write::write_class_51;
pub use write::write_class;
