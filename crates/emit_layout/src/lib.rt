//! Where the classes of a translated program keep the guest, and what they are called: their files, fields and methods.
#![tactic(auto)]

mod class_names;
mod fields;
mod helpers;
mod numbered;
mod numbers;

pub use class_names::{code_class_name, data_class_name, file_name, span_name};
pub use fields::{FIELDS, METERED_FIELDS, field_descriptor, field_name};
pub use helpers::{HELPERS, helper_descriptor, helper_name};
pub use numbers::{CHOOSE, METHODS, MISSING, PAGES, RUN};

/// Out of memory, the one error of this crate.
pub type NoMemory = std::alloc::AllocError;
