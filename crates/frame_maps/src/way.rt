use jvm_type_inference::Frame;

/// What comes of one instruction.
#[derive(Drop)]
pub enum Way {
    /// It is not typed by the frames that are listed.
    Fails,
    /// It does not go on to the next one.
    Stops,
    /// The frame that flows to the next one.
    GoesOn(Frame),
}
