use nv_events::IoFault;

/// Why a turn was not made whole.
#[derive(Clone, Copy, Debug, PartialEq, Eq)]
pub enum NetFault {
    /// The source or the sink failed in this turn.
    Io(IoFault),
    /// There is no memory for what a stage writes into a pipe or to error output.
    NoMemory,
}
