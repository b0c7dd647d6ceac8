use jvm_definition::Kind;

/// The form of a frame of a table, as far as local variables and operands do not tell the frame.
#[derive(Clone, Copy)]
pub enum Form<'a> {
    /// The same local variables.
    Same,
    /// The same local variables, and one operand.
    SameWithOperand(Kind),
    /// So many local variables are dropped.
    Chop(u8),
    /// Local variables are added.
    Append(&'a [Kind]),
    /// All local variables and operands are named.
    Full,
}
