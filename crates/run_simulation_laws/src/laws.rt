//! What holds of the runs of two machines. Each call here does nothing: its contract is the law.

ghost use Rattle.std.specs.Prelude.{◌≡◌, ℕ, Option, Some};
ghost use Rattle.run_definition.specs.Turn.{Turn, End};
ghost use Rattle.run_definition.specs.Run.{run_of};
ghost use Rattle.nv_events.specs.Laws.{GivesFitting};
ghost use Rattle.run_definition.specs.declared.outcome.Outcome.TheVariants.{Waiting};
ghost use Rattle.run_simulation_laws.specs.Trail.{advanced};
ghost use Rattle.run_simulation_laws.specs.Turns.{Pair};
ghost use Rattle.run_simulation_laws.specs.Runs.{WaitsAt};
ghost use Rattle.run_simulation_laws.specs.Laws.{Followed, RunTheSame, CountNoMore, ComeToMarks, FollowedFromStart, RunFromStart, SameOverSystem, MovesComeFirst, PartsMakeTurns, RisingTrails, MeteredRuns};

use crate::translation::Translation;
use nv_events::{Machine, Server};

/// If the classes follow the guest, both run the same for every list of answers and every bound, both ways.
pub fn same_runs<T: Translation>()
    ensures { (f : Followed T.Guest T.Classes T.Counted T.rests) → RunTheSame f }
{}

/// Machines that ask the same and end in the same way for every list of answers run the same over each kind of system whose answers
/// fit, and where they are over they leave it in the same state.
pub fn same_runs_told<G: Machine, J: Machine, V: Server>()
    requires fitting { GivesFitting V.reply }
    ensures { SameOverSystem G.State J.State V.reply }
{}

/// A run that waits asked last what its system does not answer, and machine and system are where it was asked: the answers before
/// it alone have changed the system. Of machines that run the same, both wait so, over the same state of the system.
pub fn runs_wait_where_no_answer_is<M: Machine, V: Server>()
    ensures { (turn : M.State → Turn M.State) (n : ℕ) (s : M.State) (k : V.State)
        → (run_of turn V.reply n s k).outcome ≡ Waiting
        → WaitsAt turn V.reply (run_of turn V.reply n s k) }
{}

/// What the classes have counted in m turns after their first call is at most what the guest has, and what loading allows. Where
/// nothing is counted up to the call, that is all that they count.
pub fn counts<T: Translation>()
    ensures { (f : Followed T.Guest T.Classes T.Counted T.rests) → CountNoMore f }
{}

/// If the guest goes on at a marked state, after one turn at least, the classes come to its place with the same questions,
/// within the allowance for a turn more.
pub fn comes_to_marks<T: Translation>()
    ensures { (f : Followed T.Guest T.Classes T.Counted T.rests) → ComeToMarks f T.at_place }
{}

/// The same of machines that begin otherwise than with a call: the classes follow at the start too, within a limit of its own. Then
/// the whole runs are counted, and the start's credit is the constant.
pub fn runs_from_a_start<T: Translation>()
    ensures { (f : FollowedFromStart T.Guest T.Classes T.Counted T.rests) → RunFromStart f }
{}

/// Turns that only move ask nothing, and come first: a run that begins with them is the run from where they lead, and its trail is
/// theirs and that of the run from there.
pub fn moves_come_first<M: Machine>()
    ensures { (turn : M.State → Turn M.State) (n : ℕ) (s t : M.State)
        → advanced turn n s ≡ Some t
        → MovesComeFirst turn n s t }
{}

/// Parts of a turn, one after the other, are a part. A part before turns that follow makes turns that follow, within what both take.
/// A part that ends at rest, with one turn of the guest at least, is turns that follow.
pub fn parts_make_turns<T: Translation>()
    ensures { (p : Pair T.Guest T.Classes T.Counted) → PartsMakeTurns p T.rests }
{}

/// A trail whose places rise visits each of them at most once, and no more of them than lie between its ends. Trails of which each
/// begins where the one before it ends rise as a whole.
pub fn rising_places_are_visited_once<M: Machine>()
    ensures { (place : M.State → Option ℕ) → RisingTrails place }
{}

/// A guest with a meter runs as the guest does for so many turns, and then ends so. Classes that run the same as it, within an
/// allowance for one turn more, have exactly these questions and this end.
pub fn metered_runs<G: Machine, J: Machine>()
    ensures { (turn : G.State → Turn G.State) (spent : G.State → End)
        → MeteredRuns J.State turn spent }
{}
