//! That a program with a meter runs as its guest does until the meter is spent. Each call here does nothing: its contract is the law.

ghost use Rattle.run_definition.specs.Answer.{next_answer};
ghost use Rattle.nv_events.specs.Laws.{GivesFitting};
ghost use Rattle.emit_metered_laws.specs.Running.{MeteredProgramsFollow, MeteredProgramsRun};

use crate::turn_laws::metered_turns_are_followed;
use emit_loading_laws::laws::{metered_loading_follows, metered_programs_load};
use emit_program_laws::choice_passes::begun_programs_choose;
use nv_events::Server;

/// The classes follow the guest from the loader's call on, where a turn at least is on the meter, and end at once in the fault of a spent meter where none
/// is; and then they follow it turn by turn.
pub fn metered_programs_follow()
    ensures { MeteredProgramsFollow }
{
    metered_turns_are_followed();
    metered_programs_load();
    metered_loading_follows();
    begun_programs_choose();
}

/// For every list of answers the classes, in enough turns, run as the guest does in as many as are put on the meter:
/// they ask the same, and end in the same way, and where the guest goes on, in the fault of a spent meter. For n turns
/// on the meter 1024 turns n + 2 times are enough, and so many more that these and two times 1024 are enough for
/// loading.
pub fn metered_programs_run()
    ensures { MeteredProgramsRun next_answer }
{
    metered_programs_follow();
}

/// So they do over every system whose answers fit, and leave it the same.
pub fn metered_programs_run_over_systems<V: Server>()
    requires fitting { GivesFitting V.reply }
    ensures { MeteredProgramsRun V.reply }
{
    metered_programs_follow();
}
