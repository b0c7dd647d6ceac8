/// A constant that an instruction pushes (JVM Specification, 2.11.2).
#[derive(Clone, Copy)]
pub enum Constant {
    Null,
    /// An int, as the word that is its two's complement.
    Int(u32),
    /// A long, as its 64 bits.
    Long(u64),
    /// A string: the number of a class, and the slot of its text in that class's pool.
    Text(u16, u16),
}
