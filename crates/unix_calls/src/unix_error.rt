ghost use Rattle.std.specs.Prelude.{◌≡◌};
ghost use Rattle.unix_calls.specs.declared.unix_error.UnixError.TheVariants as error;

use crate::NoMemory;

/// Why an argument or a file was not added.
#[derive(Clone, Copy, Debug, PartialEq, Eq)]
pub enum UnixError {
    /// The argument block would have this number of bytes, of which there may be 4,096.
    ArgsTooLong(u64),
    /// The files would need this number of blocks, and there are fewer.
    FilesTooLarge(u64),
    NoMemory,
}

impl From<NoMemory> for UnixError {
    ghost from_gives = { λ _ e. e ≡ error.NoMemory };

    fn from(_: NoMemory) -> UnixError {
        UnixError::NoMemory
    }
}
