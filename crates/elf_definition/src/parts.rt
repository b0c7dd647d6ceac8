use crate::part::Part;
use crate::sec::Sec;
use std::alloc::Global;

/// What an executable file is made of.
#[derive(Drop)]
pub struct Parts {
    /// The address of the first instruction (`e_entry`).
    pub entry: u32,
    /// The loaded segments, in the order of their headers.
    pub segments: Vec<Part, Global>,
    /// The sections, in the order of their headers. Where there are none the file has no section header table.
    pub sections: Vec<Sec, Global>,
}
