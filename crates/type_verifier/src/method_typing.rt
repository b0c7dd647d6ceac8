use jvm_type_inference::Frame;

/// What is inferred of a method of linked classes (JVM Specification, 4.10.2.2).
#[derive(Drop)]
pub enum MethodTyping {
    /// The frames of its least typing, below those of each other one, with their offsets, which rise: exactly those that are
    /// reached from 0.
    Listed(Vec<(u32, Frame)>),
    /// The least offset up to which it has no typing.
    Fails(u32),
}
