ghost use Rattle.std.specs.Prelude.{◌≡◌, ◌≢◌, Some};
ghost use Rattle.command_deeds.specs.Runs.{answer_of};

use crate::done::Done;
use nv_events::Outcome;

/// The answer of a run that ended so. A run over a system does not wait.
pub fn answer_of(outcome: Outcome) -> Done
    requires { outcome ≢ Outcome.Waiting }
    ensures { answer_of outcome ≡ Some result }
{
    match outcome {
        Outcome::Exited(status) => Done::Exited(status),
        Outcome::Faulted(fault) => Done::Faulted(fault),
        Outcome::Trapped(kind) => Done::Trapped(kind),
        Outcome::Going => Done::Spent,
        Outcome::Waiting => unreachable!(),
    }
}
