/// Where the input of a stage comes from.
#[derive(Clone, Copy, Debug, PartialEq, Eq)]
pub(crate) enum Inlet {
    /// From the source.
    Source,
    /// From the pipe before it. `fed` says that the stage before has ended, so that nothing more comes.
    Pipe { fed: bool },
}
