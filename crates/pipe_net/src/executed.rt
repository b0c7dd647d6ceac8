use nv_events::Outcome;

/// Instructions of a stage that were executed, and why no more were.
#[derive(Clone, Copy, Debug, PartialEq, Eq)]
pub(crate) struct Executed {
    pub count: u64,
    pub stop: Stop,
}

/// Why no further instruction was executed.
#[derive(Clone, Copy, Debug, PartialEq, Eq)]
pub(crate) enum Stop {
    /// All were executed that were to be.
    Most,
    /// The next one is a call that is not ready.
    NotReady,
    /// The last one ended the program so.
    Ended(Outcome),
}
