//! What holds of the runs of a guest with a meter and of classes that follow it. Each call here does nothing: its contract is the law.

ghost use Rattle.run_definition.specs.Answer.{next_answer};
ghost use Rattle.nv_events.specs.Laws.{GivesFitting};
ghost use Rattle.run_definition.specs.Turn.{End, Turn};
ghost use Rattle.run_simulation_laws.specs.Turns.{Pair};
ghost use Rattle.run_simulation_laws.specs.MeteredLaws.{MeteredFromStart, MeteredOverSystem, MetersArePaid, RunsToItsMeter};

use crate::metered_translation::MeteredTranslation;
use nv_events::{Machine, Server};

/// Classes that follow the guest's turns, and have taken them off their meter, follow the guest with that meter; and so do classes that end as a
/// spent meter does, if it has not enough for them.
pub fn meters_are_paid<T: MeteredTranslation>()
    ensures { (p : Pair T.Guest T.Classes T.Counted) (spent : T.Guest → End)
        → MetersArePaid p spent T.rests }
{}

/// Classes that follow the guest with a meter from a start on, and then by the law of a turn, run as it does for so many turns, and then end as
/// a spent meter does: over lists of answers, and over every system whose answers fit.
pub fn metered_runs_from_a_start<T: MeteredTranslation, V: Server>()
    requires fitting { GivesFitting V.reply }
    ensures answered { (f : MeteredFromStart T.Guest T.Classes T.rests)
        → RunsToItsMeter f next_answer }
    ensures served { (f : MeteredFromStart T.Guest T.Classes T.rests) → RunsToItsMeter f V.reply }
{}

/// A guest with a meter runs over each system as the guest does for so many turns, and then ends so. Classes that run the same as it, within an
/// allowance for one turn more, have exactly these questions and this end.
pub fn metered_runs_told<G: Machine, J: Machine, V: Server>()
    ensures { (turn : G.State → Turn G.State) (spent : G.State → End)
        → MeteredOverSystem J.State turn spent V.reply }
{}
