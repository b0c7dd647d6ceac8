/// Pages of 4,096 bytes that follow each other: 1 to 65,536 of them, below page 524,288. All can be read; all or none can be written.
#[derive(Clone, Copy, Debug, PartialEq, Eq)]
pub struct PageRun {
    pub first: u32,
    pub count: u32,
    pub writable: bool,
}
