//! Classes from bytes (JVM Specification, 4), with the first field at fault: of version 48.0, or of version 51.0 with their
//! tables of frames.
#![tactic(auto)]

mod code_reading;
mod faults;
mod framed_code_reading;
mod framed_member_reading;
mod framed_parts;
mod framed_read;
mod member_reading;
mod parts;
mod read;
mod slots;

pub use class_definition::FramedClass;
pub use constant_pool::{ClassFault, ReadError};
pub use framed_read::read_class_51;
pub use read::read_class;
