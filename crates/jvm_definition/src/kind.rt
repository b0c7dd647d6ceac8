/// The types of local variables, operands and fields (JVM Specification, 4.10.1.2).
#[derive(Clone, Copy)]
pub enum Kind {
    /// Nothing is known of a local variable.
    Top,
    Int,
    Long,
    /// The null reference.
    Null,
    /// A reference to an array of ints, or null.
    Ints,
    /// A reference to an array of arrays of ints, or null.
    Pages,
    /// A reference to a string, or null.
    Text,
}
