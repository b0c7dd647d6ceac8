/// What is wrong with code: the first instruction at fault.
///
/// | `kind` | Exactly where |
/// |---|---|
/// | 5 | the code has 0 bytes or more than 65,535; at 0; tested first |
/// | 1 | the opcode, or the array kind of `newarray`, is not of the subset |
/// | 2 | the instruction runs past the end |
/// | 4 | a padding byte of a switch is not 0, its low is above its high, its number of pairs is negative, or its keys do not rise |
/// | 3 | a target is not the offset of an instruction; tested after all instructions were read |
#[derive(Clone, Copy, Debug, PartialEq, Eq)]
pub struct CodeFault {
    /// The offset of the instruction at fault.
    pub at: u32,
    /// What is wrong, 1 to 5.
    pub kind: u32,
}
