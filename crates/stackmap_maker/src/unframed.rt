use frame_maps::FrameError;

/// Why linked classes do not become classes of version 51.0.
#[derive(Debug, PartialEq, Eq, Drop)]
pub enum Unframed {
    /// A method is not typed.
    Untyped,
    Refused(FrameError),
}
