use crate::frame::Frame;
use jvm_definition::Sequence;

/// What is inferred of a method.
#[derive(Drop)]
pub enum Inferred {
    /// The frames of its least typing, at their offsets.
    Typed(Sequence<Option<Frame>>),
    /// It has no typing; the least offset up to which it has none.
    Fails(u32),
}
