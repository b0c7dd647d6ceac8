ghost use Rattle.std.specs.Prelude.{◌≡◌};
ghost use Rattle.emit_spans.specs.declared.span_error.SpanError.TheVariants.{NoMemory};

use std::alloc::{AllocError, AllocFailed};

/// Why a span has no method.
#[derive(Clone, Copy, Debug, PartialEq, Eq)]
pub enum SpanError {
    /// Its code has more than 65,535 bytes.
    TooLong,
    /// There was not enough memory.
    NoMemory,
}

impl From<AllocError> for SpanError {
    ghost from_gives = { λ _ e. e ≡ NoMemory };

    fn from(_error: AllocError) -> SpanError {
        SpanError::NoMemory
    }
}

impl<T: Drop> From<AllocFailed<T>> for SpanError {
    ghost from_gives = { λ _ e. e ≡ NoMemory };

    fn from(_error: AllocFailed<T>) -> SpanError {
        SpanError::NoMemory
    }
}
