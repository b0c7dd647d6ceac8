ghost use Rattle.std.specs.Prelude.{◌≡◌};
ghost use Rattle.elf_reader.specs.declared.elf_error.ElfError.TheVariants.{NoMemory};

use elf_definition::ElfFault;
use std::alloc::AllocError;
use thiserror::Error;

/// Why an ELF file was not read.
#[derive(Clone, Copy, Debug, PartialEq, Eq, Error)]
pub enum ElfError {
    /// The file is refused, for the first check that it fails.
    #[error("the file fails check {0:?}")]
    Refused(ElfFault),
    /// There was not enough memory.
    #[error("there is not enough memory")]
    NoMemory,
}

impl From<AllocError> for ElfError {
    ghost from_gives = { λ _ e. e ≡ NoMemory };

    fn from(_e: AllocError) -> ElfError {
        ElfError::NoMemory
    }
}
