use crate::instruction::Instruction;

/// An instruction and where it is.
#[derive(Drop)]
pub struct LinkedLine {
    /// The offset of its opcode from the code's start.
    pub at: u32,
    /// The offset after it.
    pub next: u32,
    pub instruction: Instruction,
}
