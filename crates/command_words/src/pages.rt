/// The sizes of a guest's memory, in pages of 4,096 bytes.
#[derive(Clone, Copy, Debug, PartialEq, Eq)]
pub struct Pages {
    /// The heap's, 0 to 32,768.
    pub heap: u32,
    /// The stack's, 1 to 32,768.
    pub stack: u32,
}
