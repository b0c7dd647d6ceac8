use crate::usage::Usage;
use clap::Error;
use clap::error::ErrorKind;
use std::alloc::AllocError;

/// Why no command was read.
#[derive(Clone, Copy, Debug, PartialEq, Eq)]
pub enum WordsError {
    /// The words are at fault.
    Usage(Usage),
    /// There was not enough memory.
    NoMemory,
}

impl WordsError {
    /// The words after the command's name break its rules.
    pub const NOT_LAWFUL: WordsError = WordsError::Usage(Usage::NotLawful);
}

impl From<AllocError> for WordsError {
    ghost use Rattle.std.specs.Prelude.{◌≡◌};
    ghost use Rattle.command_forms.specs.declared.words_error.WordsError.TheVariants.{NoMemory};

    ghost from_gives = { λ _ e. e ≡ NoMemory };

    fn from(_error: AllocError) -> WordsError {
        WordsError::NoMemory
    }
}

impl From<Error> for WordsError {
    ghost use Rattle.std.specs.Prelude.{◌≡◌};
    ghost use Rattle.clap.specs.Words.{kind_of};
    ghost use Rattle.command_forms.specs.Answers.{words_error_of};

    ghost from_gives = { λ error e. e ≡ words_error_of (kind_of error) };

    fn from(error: Error) -> WordsError {
        match error.kind() {
            ErrorKind::OutOfMemory => WordsError::NoMemory,
            _ => WordsError::NOT_LAWFUL,
        }
    }
}
