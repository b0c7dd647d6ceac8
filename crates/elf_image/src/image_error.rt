ghost use Rattle.std.specs.Prelude.{◌≡◌};
ghost use Rattle.elf_image.specs.declared.image_error.ImageError.TheVariants.{NoMemory};

use elf_definition::ImageFault;
use std::alloc::AllocError;
use thiserror::Error;

/// Why there is no image.
#[derive(Clone, Copy, Debug, PartialEq, Eq, Error)]
pub enum ImageError {
    /// The file is refused, for the first check that it fails.
    #[error("the file fails check {0:?} of its image")]
    Refused(ImageFault),
    /// There was not enough memory.
    #[error("there is not enough memory")]
    NoMemory,
}

impl From<AllocError> for ImageError {
    ghost from_gives = { λ _ e. e ≡ NoMemory };

    fn from(_e: AllocError) -> ImageError {
        ImageError::NoMemory
    }
}
