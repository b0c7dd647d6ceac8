use jvm_definition::Sequence;

/// A static method of a class (JVM Specification, 4.6 and 4.7.3).
#[derive(Drop)]
pub struct Method {
    /// The slot of its name.
    pub name: u16,
    /// The slot of its descriptor.
    pub desc: u16,
    /// The slot of the text `Code`.
    pub attr: u16,
    /// The greatest number of operands, of which a long is two (`max_stack`).
    pub stack: u16,
    /// The number of local variables (`max_locals`).
    pub locals: u16,
    /// Its code, as bytes.
    pub code: Sequence<u8>,
}
