//! Class files made member by member (JVM Specification, 4).
#![tactic(auto)]

mod ascii;
mod beginning;
mod builder;
mod error;
mod laws;
mod member_kind;
mod names;
mod references;
mod slot_kind;
mod sound_pool;

pub use builder::ClassBuilder;
pub use error::BuildError;
pub use laws::{
    arrays_are_meant, classes_are_asked_for, entries_pass, fields_are_meant, host_is_meant,
    methods_are_meant, strings_are_meant,
};
