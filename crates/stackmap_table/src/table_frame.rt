use crate::table_type::TableType;
use jvm_definition::Sequence;

/// A frame as a table has it: `stack_map_frame` (JVM Specification, Java SE 7 edition, 4.7.4). Each form but the last one changes
/// the local variables of the frame before it; the one before the first has the parameters. The number that comes first is the
/// delta: by how much the offset rises, less one from the second frame on.
#[derive(Drop)]
pub enum TableFrame {
    /// The same local variables. The delta is below 64.
    Same(u8),
    /// The same local variables, and one operand. The delta is below 64.
    SameWithOperand(u8, TableType),
    /// The same local variables, and one operand.
    SameWithOperandExtended(u16, TableType),
    /// The last one, two or three local variables are dropped.
    Chop(u16, u8),
    /// The same local variables.
    SameExtended(u16),
    /// One, two or three local variables are added.
    Append(u16, Sequence<TableType>),
    /// Local variables, and operands, the top last.
    Full(u16, Sequence<TableType>, Sequence<TableType>),
}
