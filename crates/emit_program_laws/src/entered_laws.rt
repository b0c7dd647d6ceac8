//! How a translated program goes on that its host enters. The call here does nothing: its contract is
//! the law.

ghost use Rattle.emit_program_laws.specs.Entered.{EnteredProgramsGoOn};

use crate::turn_laws::turns_are_followed;

/// If the host has put a state of the guest's into fields and arrays, between two instructions, and
/// enters the method that chooses among classes, the classes run as the guest does from there: for
/// every list of answers and every bound, both ways.
pub fn entered_programs_go_on()
    ensures { EnteredProgramsGoOn }
{
    turns_are_followed();
}
