//! How a program with a meter goes on that its host fills again. Each call here does nothing: its contract is the law.

ghost use Rattle.run_definition.specs.Answer.{next_answer};
ghost use Rattle.nv_events.specs.Laws.{GivesFitting};
ghost use Rattle.emit_metered_laws.specs.Slices.{FirstRunsAreSlices, SlicesAddUp, SlicesAddUpFromStart, SpentMetersGoOn};

use crate::laws::metered_programs_follow;
use crate::turn_laws::meters_are_paid_or_spent;
use nv_events::Server;

/// If the host has put a state of the guest's into fields and arrays, between two instructions, and turns on the meter, and enters the method that
/// chooses among classes, these run as the guest does for as many turns. If the guest goes on then, they end in the fault of a spent meter, after as
/// many turns of the guest's or, before a branch with its slot, one fewer; what was not made is still on the meter. With the fault's address in field
/// pc, fields and arrays hold the guest's state again, so the host can put more turns on the meter, and enter once more.
pub fn spent_meters_go_on<V: Server>()
    requires fitting { GivesFitting V.reply }
    ensures answered { SpentMetersGoOn next_answer }
    ensures served { SpentMetersGoOn V.reply }
{
    meters_are_paid_or_spent();
}

/// So do the classes from their start, where a turn at least is on the meter.
pub fn first_runs_are_slices<V: Server>()
    requires fitting { GivesFitting V.reply }
    ensures answered { FirstRunsAreSlices next_answer }
    ensures served { FirstRunsAreSlices V.reply }
{
    meters_are_paid_or_spent();
    metered_programs_follow();
}

/// Slices add up: one after the other, whatever is put on the meter for each, they ask what the guest asks in as many turns as their sum, and end as it
/// does, or if it goes on in the fault of a spent meter. The first of them may be the run from the start.
pub fn slices_add_up<V: Server>()
    requires fitting { GivesFitting V.reply }
    ensures answered { SlicesAddUp next_answer }
    ensures served { SlicesAddUp V.reply }
    ensures answered_from_start { SlicesAddUpFromStart next_answer }
    ensures served_from_start { SlicesAddUpFromStart V.reply }
{
    meters_are_paid_or_spent();
    metered_programs_follow();
}
