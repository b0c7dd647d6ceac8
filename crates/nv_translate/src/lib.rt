//! Translates MIPS programs to class files for the Java virtual machine. A translation is accepted, and runs as its program: each law is the
//! contract of a call that does nothing, and `translate` promises all of them.
#![tactic(auto)]

pub mod accepted_translations;
pub mod called_translations;
pub mod counted_translations;
pub mod ended_translations;
pub mod entered_translations;
pub mod laws;
mod layouts;
pub mod linked_translations;
mod metered_translation;
pub mod repeated_translations;
pub mod sized_translations;
pub mod sliced_translations;
pub mod stopped_translations;
pub mod translated_loading;
pub mod translated_methods;
pub mod translated_types;
mod translation;
pub mod warm_translations;

pub use layouts::layouts_are_one;
pub use metered_translation::{translate_files_metered, translate_metered};
pub use translate_program::{
    BlockInfo, Built, Layout, NamedFile, NoMemory, SpanInfo, allow, meter_allow, need,
};
pub use translation::{translate, translate_files};
