ghost use Rattle.std.specs.Prelude.{◌≡◌};
ghost use Rattle.class_format.specs.declared.failure.Failure.TheVariants.{NoMemory, Missed};

use class_definition::Miss;
use std::alloc::{AllocError, AllocFailed};

/// Why nothing was read.
#[derive(Debug, Drop)]
pub enum Failure {
    /// No value is there.
    Missed(Miss),
    /// Memory ran out.
    NoMemory,
}

impl From<Miss> for Failure {
    ghost from_gives = { λ miss e. e ≡ Missed miss };

    fn from(miss: Miss) -> Failure {
        Failure::Missed(miss)
    }
}

impl From<AllocError> for Failure {
    ghost from_gives = { λ _ e. e ≡ NoMemory };

    fn from(_error: AllocError) -> Failure {
        Failure::NoMemory
    }
}

impl<T: Drop> From<AllocFailed<T>> for Failure {
    ghost from_gives = { λ _ e. e ≡ NoMemory };

    fn from(_error: AllocFailed<T>) -> Failure {
        Failure::NoMemory
    }
}
