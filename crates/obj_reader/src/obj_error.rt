ghost use Rattle.std.specs.Prelude.{◌≡◌};
ghost use Rattle.obj_reader.specs.declared.obj_error.ObjError.TheVariants.{NoMemory};

use elf_definition::ObjFault;
use std::alloc::AllocError;
use thiserror::Error;

/// Why objects were not linked.
#[derive(Clone, Copy, Debug, PartialEq, Eq, Error)]
pub enum ObjError {
    /// The objects are refused, for the first check that they fail.
    #[error("the objects fail check {0:?}")]
    Refused(ObjFault),
    /// There was not enough memory.
    #[error("there is not enough memory")]
    NoMemory,
}

impl From<AllocError> for ObjError {
    ghost from_gives = { λ _ e. e ≡ NoMemory };

    fn from(_e: AllocError) -> ObjError {
        ObjError::NoMemory
    }
}
