use crate::block_info::BlockInfo;
use crate::span_info::SpanInfo;
use nv_values::RegionWords;

/// Where the words of a program are in its classes, and how much memory a run of them takes.
#[derive(Debug, Drop)]
pub struct Layout {
    /// The spans, by class and method.
    pub spans: Vec<SpanInfo>,
    /// The blocks, by span and offset.
    pub blocks: Vec<BlockInfo>,
    /// The words of the region in which the classes run.
    pub need: RegionWords,
}
