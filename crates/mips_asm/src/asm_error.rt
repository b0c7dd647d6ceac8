ghost use Rattle.std.specs.Prelude.{◌≡◌};
ghost use Rattle.mips_asm.specs.declared.asm_error.AsmError.TheVariants.{NoMemory};

use mips_definition::AsmFault;
use std::alloc::AllocError;
use thiserror::Error;

/// Why a text was not assembled.
#[derive(Clone, Copy, Debug, PartialEq, Eq, Error)]
pub enum AsmError {
    /// A line is faulty.
    #[error("a line of the text is faulty: {0:?}")]
    Refused(AsmFault),
    /// There was not enough memory.
    #[error("there is not enough memory")]
    NoMemory,
}

impl From<AllocError> for AsmError {
    ghost from_gives = { λ _ e. e ≡ NoMemory };

    fn from(_e: AllocError) -> AsmError {
        AsmError::NoMemory
    }
}
