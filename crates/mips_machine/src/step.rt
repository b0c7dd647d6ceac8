ghost use Rattle.std.specs.Prelude.{◌≡◌};
ghost use Rattle.mips_machine.specs.Steps.{step_outcome};

use nv_events::{Fault, Outcome};

/// What one step of the guest machine came to.
#[derive(Clone, Copy, Debug, PartialEq, Eq)]
pub enum Step {
    /// The program goes on.
    Went,
    /// The program left with this status.
    Exited(i32),
    /// The instruction faulted.
    Faulted(Fault),
    /// The program made a call to which no answer is there.
    Waiting,
}

impl Step {
    /// The end of a run by this step, or None where the program goes on.
    #[inline]
    pub fn outcome(self) -> Option<Outcome>
        ensures { result ≡ step_outcome self }
    {
        match self {
            Step::Went => None,
            Step::Exited(status) => Some(Outcome::Exited(status)),
            Step::Faulted(fault) => Some(Outcome::Faulted(fault)),
            Step::Waiting => Some(Outcome::Waiting),
        }
    }
}
