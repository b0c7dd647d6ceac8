use crate::entry::Entry;
use crate::member::Member;
use crate::method::Method;
use jvm_definition::Sequence;

/// A class file (JVM Specification, 4.1).
#[derive(Drop)]
pub struct Class {
    /// The slots of its constant pool; the first one is slot 1.
    pub pool: Sequence<Entry>,
    /// The slot of its own name as a class.
    pub this_class: u16,
    /// The slot of the class above it.
    pub super_class: u16,
    pub fields: Sequence<Member>,
    pub methods: Sequence<Method>,
}
