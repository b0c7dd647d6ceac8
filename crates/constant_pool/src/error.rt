use class_format::ClassFault;
use std::alloc::{AllocError, AllocFailed};

/// Memory ran out.
pub type NoMemory = AllocError;

/// Why an entry was not added.
#[derive(Debug, PartialEq, Eq, Drop)]
pub enum PoolError {
    /// The entry is not there, and fewer slots are left than it takes.
    Full,
    /// Memory ran out.
    NoMemory,
}

/// Why bytes were not read.
#[derive(Debug, PartialEq, Eq, Drop)]
pub enum ReadError {
    /// They are at fault.
    Refused(ClassFault),
    /// Memory ran out.
    NoMemory,
}

impl From<AllocError> for ReadError {
    ghost use Rattle.std.specs.Prelude.{◌≡◌};
    ghost use Rattle.constant_pool.specs.declared.error.ReadError.TheVariants.{NoMemory};

    ghost from_gives = { λ _ e. e ≡ NoMemory };

    fn from(_error: AllocError) -> ReadError {
        ReadError::NoMemory
    }
}

impl<T: Drop> From<AllocFailed<T>> for PoolError {
    ghost use Rattle.std.specs.Prelude.{◌≡◌};
    ghost use Rattle.constant_pool.specs.declared.error.PoolError.TheVariants.{NoMemory};

    ghost from_gives = { λ _ e. e ≡ NoMemory };

    fn from(_error: AllocFailed<T>) -> PoolError {
        PoolError::NoMemory
    }
}
