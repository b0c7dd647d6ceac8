//! What holds of the units of every range of code. Each call here does nothing: its contract is the law.
ghost use Rattle.run_definition.specs.Answer.{next_answer};
ghost use Rattle.delay_slots.specs.Laws.{UnitsAreMade, UnitsHaveTheirTurns, UnitsLeadOn, UnitsRunFirst};

use mips_decode::encoding_inverts_decoding;
use nv_events::Server;

/// From each state that is at a word of a range with no branch pending, the machine makes the turns of the word's unit. So a run
/// from there is the run of these turns, and then a run from where they lead.
pub fn unit_is_its_steps()
    ensures turns { UnitsAreMade }
    ensures count { UnitsHaveTheirTurns }
    ensures runs { UnitsRunFirst next_answer }
{
    encoding_inverts_decoding();
}

/// Where a unit leads to a state, by any answer, that state is between units, and the same code is there.
pub fn unit_leads_on()
    ensures { UnitsLeadOn }
{}

/// A run over any kind of system state is the run of the turns of the word's unit, and then a run from where they lead.
pub fn unit_runs_over_systems<V: Server>()
    ensures { UnitsRunFirst V.reply }
{
    unit_is_its_steps();
}
