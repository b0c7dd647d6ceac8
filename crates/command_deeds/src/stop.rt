ghost use Rattle.std.specs.Prelude.{◌≡◌};
ghost use Rattle.command_deeds.specs.Stops.{shelf_stop};
ghost use Rattle.command_deeds.specs.declared.stop.Stop.TheVariants.{NoMemory, WriteFault};

use crate::done::Done;
use nv_outside::{Failed, ShelfError};
use std::alloc::AllocError;

/// What stopped a command before its work was done.
#[derive(Clone, Copy, Debug, PartialEq, Eq)]
pub enum Stop {
    /// Input failed.
    ReadFault,
    /// Output or error output failed.
    WriteFault,
    /// The shelf of files failed.
    ShelfFault,
    /// Memory ran out.
    NoMemory,
}

impl Stop {
    ghost use Rattle.command_deeds.specs.Ends.{done_of_stop};

    /// The answer of a call that was stopped.
    pub fn done(self) -> Done
        ensures { result ≡ done_of_stop self }
    {
        match self {
            Stop::ReadFault => Done::ReadFault,
            Stop::WriteFault => Done::WriteFault,
            Stop::ShelfFault => Done::ShelfFault,
            Stop::NoMemory => Done::NoMemory,
        }
    }
}

impl From<AllocError> for Stop {
    ghost from_gives = { λ _ stop. stop ≡ NoMemory };

    fn from(_error: AllocError) -> Stop {
        Stop::NoMemory
    }
}

impl From<Failed> for Stop {
    ghost from_gives = { λ _ stop. stop ≡ WriteFault };

    fn from(_error: Failed) -> Stop {
        Stop::WriteFault
    }
}

impl From<ShelfError> for Stop {
    ghost from_gives = { λ error stop. stop ≡ shelf_stop error };

    fn from(error: ShelfError) -> Stop {
        match error {
            ShelfError::Failed => Stop::ShelfFault,
            ShelfError::NoMemory => Stop::NoMemory,
        }
    }
}
