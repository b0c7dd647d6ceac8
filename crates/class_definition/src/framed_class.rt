use crate::class::Class;
use jvm_definition::Sequence;

/// A class with the tables of frames of its methods (JVM Specification, Java SE 7 edition, 4.7.4).
#[derive(Drop)]
pub struct FramedClass {
    pub class: Class,
    /// For each method the bytes of its `StackMapTable`, after the attribute's length; no bytes where it has none.
    pub tables: Sequence<Sequence<u8>>,
}
