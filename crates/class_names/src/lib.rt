//! What the names in classes mean: their classes, fields and methods, by the numbers of texts (JVM Specification, 5.4.3).
#![tactic(auto)]

mod equal_keys;
mod key;
mod known;
mod link_error;
mod lookups;
mod members;
mod names;
mod numbered;
mod numbered_class;
mod references;
mod texts;
mod twice;

pub use class_definition::LinkFault;
pub use key::Key;
pub use known::{is_char_at, is_host, is_host_call, is_host_fault, is_known, is_length, is_string};
pub use link_error::{LinkError, NoMemory};
pub use lookups::{class_name_at, signature_at, text_of};
pub use members::Members;
pub use names::Names;
pub use numbered::Numbered;
pub use numbered_class::NumberedClass;
pub use references::references_fault;
pub use texts::Texts;
pub use twice::twice_fault;
