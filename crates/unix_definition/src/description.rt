ghost use Rattle.std.specs.Prelude.{◌≡◌};
ghost use Rattle.unix_definition.specs.Unix.{console_side};

use crate::target::Target;

/// An open file or side of the console, which one or more descriptors stand for.
#[derive(Clone, Copy, Debug, PartialEq, Eq)]
pub struct Description {
    pub target: Target,
    /// Where the next read or write of a file begins, in bytes from its start.
    pub place: u32,
    pub may_read: bool,
    pub may_write: bool,
    /// Each write of a file goes to its end.
    pub appends: bool,
}

impl Description {
    /// A side of the console as a run finds it open: input for reading, the others for writing.
    pub fn of_console(target: Target) -> Description
        ensures { result ≡ console_side target }
    {
        let is_input = target == Target::Input;
        Description {
            target,
            place: 0,
            may_read: is_input,
            may_write: !is_input,
            appends: false,
        }
    }

    /// The description with another place.
    pub fn at(self, place: u32) -> Description
        ensures { result ≡ record self { place = place } }
    {
        Description { place, ..self }
    }
}
