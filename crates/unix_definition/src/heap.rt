/// The heap of the program: its first address, the one past its last, and the program break between them. All are 0 before the program
/// began.
#[derive(Clone, Copy, Debug, PartialEq, Eq)]
pub struct Heap {
    /// The call by which the program begins was answered.
    pub begun: bool,
    pub start: u32,
    pub end: u32,
    pub program_break: u32,
}
