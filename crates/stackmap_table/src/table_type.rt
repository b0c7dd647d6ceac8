/// The type of a local variable or an operand, as a table has it: `verification_type_info` (JVM Specification, Java SE 7
/// edition, 4.7.4).
#[derive(Clone, Copy, Debug, PartialEq, Eq)]
pub enum TableType {
    /// Nothing is known of a local variable.
    Top,
    Int,
    /// A long, which is an operand.
    Long,
    Null,
    /// A reference, by the slot of its class.
    Object(u16),
}
