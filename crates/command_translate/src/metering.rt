//! The answers of classes that have a meter.
ghost use Rattle.std.specs.Prelude.{◌≡◌};
ghost use Rattle.command_deeds.specs.Ends.{ended};
ghost use Rattle.command_translate.specs.Metered.{by_meter, ended_by_meter, is_spent};

use command_deeds::{Done, Ending};
use meter::SPENT;

/// The end of a run by a meter, where without one it would be this.
pub fn end_by_meter(end: Result<Done, Ending>) -> Result<Done, Ending>
    ensures { ended result ≡ ended_by_meter (ended end) }
{
    match end {
        Ok(done) => Ok(by_meter(done)),
        Err(Ending::Refused(done)) => Err(Ending::Refused(by_meter(done))),
        Err(Ending::NoFile { word, name }) => Err(Ending::NoFile { word, name }),
        Err(Ending::Stopped(stop)) => Err(Ending::Stopped(stop)),
    }
}

/// The answer by a meter: the fault of a spent one tells that the steps of the program are spent. The program itself has no fault of this
/// kind.
fn by_meter(done: Done) -> Done
    ensures { result ≡ by_meter done }
{
    if is_spent(done) { Done::Spent } else { done }
}

/// Whether an answer is the fault of a spent meter.
fn is_spent(done: Done) -> bool
    ensures { result ≡ is_spent done }
{
    match done {
        Done::Faulted(fault) => fault.kind == SPENT,
        _ => false,
    }
}
