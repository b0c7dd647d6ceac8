use crate::inlet::Inlet;
use crate::outlet::Outlet;

/// What a stage is to do in a turn.
#[derive(Clone, Copy, Debug, PartialEq, Eq)]
pub(crate) struct Terms {
    /// How many instructions it is to execute at most.
    pub most: u64,
    pub inlet: Inlet,
    pub outlet: Outlet,
    /// A pipe that holds so many bytes is full.
    pub c: u32,
}
