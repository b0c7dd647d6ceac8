/// Why no value is at the front of some bytes.
#[derive(Clone, Copy, Debug, PartialEq, Eq)]
pub struct Miss {
    /// What is wrong, as a number of the format's table of kinds.
    pub kind: u32,
    /// How many bytes are left where the field at fault begins.
    pub left: usize,
}
