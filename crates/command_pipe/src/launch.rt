use nv_values::{PipeBytes, RegionWords};

/// How the stages of a pipeline are started.
#[derive(Debug, Drop)]
pub struct PipeLaunch {
    /// The words of the region of each.
    pub words: RegionWords,
    /// The most instructions that each executes.
    pub steps: u64,
    /// The blocks of the disk of each, 0 to 65,536.
    pub disk: u32,
    /// The bytes that make a pipe full.
    pub size: PipeBytes,
    /// The time in seconds since 1970.
    pub moment: u64,
}
