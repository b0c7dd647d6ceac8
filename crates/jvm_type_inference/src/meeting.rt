use crate::frame::Frame;

/// What comes of a frame that flows to an instruction.
#[derive(Drop)]
pub enum Meeting {
    /// The frame there is above it already.
    Unchanged,
    /// The least frame above both is a new one.
    Changed(Frame),
    /// No frame is above both.
    Refused,
}
