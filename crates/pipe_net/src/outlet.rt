/// Where the output of a stage goes.
#[derive(Clone, Copy, Debug, PartialEq, Eq)]
pub(crate) enum Outlet {
    /// To the sink.
    Sink,
    /// Into the pipe after it.
    Pipe,
    /// Nowhere: the stage after it has ended.
    Nowhere,
}
