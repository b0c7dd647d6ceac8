//! What is held where the runs of translated programs call the system. Each call here does nothing: its contract is the law.

ghost use Rattle.run_definition.specs.Answer.{next_answer};
ghost use Rattle.nv_events.specs.Laws.{GivesFitting};
ghost use Rattle.emit_calls_laws.specs.Running.{EnteredMetersHoldAtCalls, EnteredProgramsHoldAtCalls, MeteredProgramsHoldAtCalls, ProgramsHoldAtCalls};
ghost use Rattle.emit_calls_laws.specs.Setting.{HostsSetStates};

use crate::turn_laws::{metered_turns_hold_at_calls, turns_hold_at_calls};
use emit_loading_laws::laws::programs_load;
use emit_metered_laws::laws::metered_programs_follow;
use emit_metered_laws::turn_laws::metered_turns_are_followed;
use emit_paths_laws::laws::weights;
use emit_program_laws::choice_passes::begun_programs_choose;
use emit_program_laws::turn_laws::turns_are_followed;
use nv_events::Server;
use trampoline_laws::laws::spans_are_numbered;

/// If a run of the classes from their start has come to a call, whatever was answered before, the guest has come to the same call after no more
/// turns; and behind its first call fields and arrays hold there HI, LO, the link of LL and the memory of its state. So it is at each call if the
/// host has put a state of the guest's into fields and arrays, and enters the method that chooses among classes.
pub fn programs_hold_at_calls<V: Server>()
    requires fitting { GivesFitting V.reply }
    ensures answered { ProgramsHoldAtCalls next_answer }
    ensures served { ProgramsHoldAtCalls V.reply }
    ensures answered_entered { EnteredProgramsHoldAtCalls next_answer }
    ensures served_entered { EnteredProgramsHoldAtCalls V.reply }
{
    begun_programs_choose();
    weights();
    programs_load();
    spans_are_numbered();
    turns_are_followed();
    turns_hold_at_calls();
}

/// So it is with a meter, where fields hold the registers too, and what was put on the meter less the turns up to the call.
pub fn metered_programs_hold_at_calls<V: Server>()
    requires fitting { GivesFitting V.reply }
    ensures answered { MeteredProgramsHoldAtCalls next_answer }
    ensures served { MeteredProgramsHoldAtCalls V.reply }
    ensures answered_entered { EnteredMetersHoldAtCalls next_answer }
    ensures served_entered { EnteredMetersHoldAtCalls V.reply }
{
    metered_programs_follow();
    metered_turns_are_followed();
    metered_turns_hold_at_calls();
}

/// If a host leaves a run at a call, keeps the tables, and puts another state into fields and pages, they hold this state, so that it can enter the
/// method that chooses among classes.
pub fn hosts_set_states()
    ensures { HostsSetStates }
{}
