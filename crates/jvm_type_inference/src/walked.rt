use crate::frame::Frame;

/// What comes of a walk through a block.
#[derive(Drop)]
pub enum Walked {
    /// The offset of the block's last instruction, and the frame behind it.
    Ends(usize, Frame),
    /// The offset of an instruction with which no typing is left.
    Fails(usize),
}
