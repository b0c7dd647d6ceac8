//! The constant pool of a class file (JVM Specification, 4.4): its entries, as they are made and as they are read.
#![tactic(auto)]

mod entry_check;
mod entry_reading;
mod error;
mod form;
mod lookups;
mod names;
mod pool;
mod pool_reading;
mod slots;
mod stepping;
mod text;
mod text_reading;

pub use class_definition::Entry;
pub use class_format::ClassFault;
pub use error::{NoMemory, PoolError, ReadError};
pub use lookups::{class_name_of, entry_of, text_of};
pub use names::{
    after_field, is_array_name, is_class_name, is_field_descriptor, is_member_name,
    is_method_descriptor, is_own_descriptor,
};
pub use pool::Pool;
pub use pool_reading::{entries_of, read_pool};
pub use slots::Slots;
pub use text::{append_text, text_size};
