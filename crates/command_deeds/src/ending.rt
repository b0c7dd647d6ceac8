ghost use Rattle.std.specs.Prelude.{◌≡◌};
ghost use Rattle.command_deeds.specs.Answers.{end_of, final};
ghost use Rattle.command_deeds.specs.Stops.{shelf_stop, stop_of, unix_ending, words_ending};
ghost use Rattle.command_deeds.specs.declared.ending.Ending.TheVariants as ending;
ghost use Rattle.command_deeds.specs.declared.stop.Stop.TheVariants as stop;

use crate::done::Done;
use crate::stop::Stop;
use command_forms::{Usage, WordsError};
use nv_events::IoFault;
use nv_outside::{Failed, ShelfError};
use std::alloc::AllocError;
use unix_calls::UnixError;

/// Why a command ended before its work was done.
#[derive(Debug, Drop)]
pub enum Ending {
    /// There is no file of this name, which a word gives: the command's answer is `NoInput`.
    NoFile {
        /// The number of the word, from 0.
        word: u32,
        /// The name that was asked for.
        name: String,
    },
    /// The command's answer.
    Refused(Done),
    /// The command was stopped.
    Stopped(Stop),
}

impl Ending {
    /// The answer of a command that ended so.
    pub fn done(&self) -> Done
        ensures { result ≡ (final (end_of self.now)).done }
    {
        match self {
            Ending::NoFile { word, .. } => Done::NoInput(*word),
            Ending::Refused(done) => *done,
            Ending::Stopped(stop) => stop.done(),
        }
    }

    /// The name that was asked for where there is no such file, else nothing.
    pub fn name(&self) -> &str
        ensures { result.now ≡ (final (end_of self.now)).name }
    {
        match self {
            Ending::NoFile { name, .. } => name.as_str(),
            Ending::Refused(_) | Ending::Stopped(_) => "",
        }
    }
}

impl From<Stop> for Ending {
    ghost from_gives = { λ s e. e ≡ ending.Stopped s };

    fn from(stop: Stop) -> Ending {
        Ending::Stopped(stop)
    }
}

impl From<AllocError> for Ending {
    ghost from_gives = { λ _ e. e ≡ ending.Stopped stop.NoMemory };

    fn from(_error: AllocError) -> Ending {
        Ending::Stopped(Stop::NoMemory)
    }
}

impl From<Failed> for Ending {
    ghost from_gives = { λ _ e. e ≡ ending.Stopped stop.WriteFault };

    fn from(_error: Failed) -> Ending {
        Ending::Stopped(Stop::WriteFault)
    }
}

impl From<ShelfError> for Ending {
    ghost from_gives = { λ error e. e ≡ ending.Stopped (shelf_stop error) };

    fn from(error: ShelfError) -> Ending {
        Ending::Stopped(Stop::from(error))
    }
}

impl From<IoFault> for Ending {
    ghost from_gives = { λ fault e. e ≡ ending.Stopped (stop_of fault) };

    fn from(fault: IoFault) -> Ending {
        match fault {
            IoFault::ReadFault => Ending::Stopped(Stop::ReadFault),
            IoFault::WriteFault => Ending::Stopped(Stop::WriteFault),
        }
    }
}

impl From<UnixError> for Ending {
    ghost from_gives = { λ error e. e ≡ unix_ending error };

    fn from(error: UnixError) -> Ending {
        match error {
            UnixError::ArgsTooLong(bytes) => Ending::Refused(Done::ArgsTooLong(bytes)),
            UnixError::FilesTooLarge(blocks) => Ending::Refused(Done::FilesTooLarge(blocks)),
            UnixError::NoMemory => Ending::Stopped(Stop::NoMemory),
        }
    }
}

impl From<WordsError> for Ending {
    ghost from_gives = { λ error e. e ≡ words_ending error };

    fn from(error: WordsError) -> Ending {
        match error {
            WordsError::Usage(Usage::NoCommand) => Ending::Refused(Done::Usage(Done::NO_COMMAND)),
            WordsError::Usage(Usage::NotLawful) => Ending::Refused(Done::Usage(Done::NOT_LAWFUL)),
            WordsError::NoMemory => Ending::Stopped(Stop::NoMemory),
        }
    }
}
