use crate::mnemonic::Mnemonic;

/// What a line of an assembly text is.
#[derive(Clone, Copy)]
pub enum Statement<'a> {
    /// An empty line.
    Nothing,
    /// A label, with its name.
    Label(&'a [u8]),
    /// `.text`, with what follows it.
    TextSegment(&'a [u8]),
    /// `.data`, with what follows it.
    DataSegment(&'a [u8]),
    /// `.word`, with its operand.
    Word(&'a [u8]),
    /// `.space`, with its operand.
    Space(&'a [u8]),
    /// An instruction, with its operands.
    Instruction(Mnemonic, &'a [u8]),
    /// A line of no form, as one with an unknown mnemonic.
    NoForm,
}
