use class_definition::FrameFault;
use std::alloc::AllocError;

/// Why classes have no tables, or do not pass with those that they have.
#[derive(Debug, PartialEq, Eq, Drop)]
pub enum FrameError {
    Refused(FrameFault),
    /// The file of a class with its tables, of so many bytes, exceeds 67,108,864 bytes: the first such one, numbered from 0.
    TooLarge { class: u32, bytes: u64 },
    NoMemory,
}

impl From<AllocError> for FrameError {
    ghost use Rattle.std.specs.Prelude.{◌≡◌};
    ghost use Rattle.frame_maps.specs.declared.frame_error.FrameError.TheVariants.{NoMemory};

    ghost from_gives = { λ _ e. e ≡ NoMemory };

    fn from(_error: AllocError) -> FrameError {
        FrameError::NoMemory
    }
}
