use crate::fault::Fault;

/// How a run of a machine ended, or that it has not ended.
#[derive(Clone, Copy, Debug, PartialEq, Eq)]
pub enum Outcome {
    /// The program left with this status.
    Exited(i32),
    /// An instruction of the guest faulted.
    Faulted(Fault),
    /// The class machine met this trap, 1 to 6.
    Trapped(u32),
    /// The program made a call to which no answer is there.
    Waiting,
    /// The bound on steps was reached before an end.
    Going,
}
