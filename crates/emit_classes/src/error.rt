use constant_pool::PoolError;
use std::alloc::{AllocError, AllocFailed};

/// Why a class could not be made, or not gone on with.
#[derive(Debug, PartialEq, Eq, Drop)]
pub enum BuildError {
    /// It would have more than a class file can hold: slots in the pool, bytes in a text, fields or methods.
    Full,
    /// A name or a descriptor is not lawful, a slot has not what is named, or steps are not the code of a method.
    Unlawful,
    /// Memory ran out.
    NoMemory,
}

impl From<AllocError> for BuildError {
    ghost use Rattle.std.specs.Prelude.{◌≡◌};
    ghost use Rattle.emit_classes.specs.declared.error.BuildError.TheVariants.{NoMemory};

    ghost from_gives = { λ _ e. e ≡ NoMemory };

    fn from(_error: AllocError) -> BuildError {
        BuildError::NoMemory
    }
}

impl<T: Drop> From<AllocFailed<T>> for BuildError {
    ghost use Rattle.std.specs.Prelude.{◌≡◌};
    ghost use Rattle.emit_classes.specs.declared.error.BuildError.TheVariants.{NoMemory};

    ghost from_gives = { λ _ e. e ≡ NoMemory };

    fn from(_error: AllocFailed<T>) -> BuildError {
        BuildError::NoMemory
    }
}

impl From<PoolError> for BuildError {
    ghost use Rattle.std.specs.Prelude.{◌≡◌};
    ghost use Rattle.emit_classes.specs.Errors.{of_pool};

    ghost from_gives = { λ p e. e ≡ of_pool p };

    fn from(error: PoolError) -> BuildError {
        match error {
            PoolError::Full => BuildError::Full,
            PoolError::NoMemory => BuildError::NoMemory,
        }
    }
}
