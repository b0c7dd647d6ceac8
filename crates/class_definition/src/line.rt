use crate::op::Op;

/// An instruction and where it is.
#[derive(Drop)]
pub struct Line {
    /// The offset of its opcode from the code's start.
    pub at: u32,
    pub op: Op,
}
