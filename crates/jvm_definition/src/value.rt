/// A value of a local variable, an operand or a field (JVM Specification, 2.2).
#[derive(Clone, Copy)]
pub enum Value {
    /// A local variable in which nothing was stored.
    Unset,
    /// An int, as the word that is its two's complement.
    Int(u32),
    /// A long, as its 64 bits.
    Long(u64),
    Null,
    /// A reference to an array, by the array's place.
    Array(u32),
    /// A reference to a string: the number of a class, and the slot of its text in that class's pool.
    Text(u16, u16),
}
