ghost use Rattle.std.specs.Prelude.{◌≡◌};
ghost use Rattle.nv_outside.specs.declared.shelf_error.ShelfError.TheVariants.{NoMemory};

use std::alloc::AllocError;

/// Why a shelf did not load or store a file.
#[derive(Clone, Copy, Debug, PartialEq, Eq)]
pub enum ShelfError {
    /// The outside failed.
    Failed,
    /// Memory ran out; nothing was changed.
    NoMemory,
}

impl From<AllocError> for ShelfError {
    ghost from_gives = { λ _ e. e ≡ NoMemory };

    fn from(_error: AllocError) -> ShelfError {
        ShelfError::NoMemory
    }
}
