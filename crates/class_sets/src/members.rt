use crate::name::Name;
use jvm_code::Class;
use jvm_definition::Sequence;

/// The classes of a set in order, as many names, and as many lists of tables.
#[derive(Drop)]
pub struct Members {
    /// The names by which they were loaded.
    pub names: Sequence<Name>,
    pub classes: Sequence<Class>,
    /// For each class of version 51.0 the tables of its methods; none for one of version 48.0.
    pub tables: Sequence<Sequence<Sequence<u8>>>,
}
