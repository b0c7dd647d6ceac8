/// Words of a range of code that are done one after the other, and the registers that their instructions read and write.
///
/// Bit r of `reads` and of `writes` stands for register r, bit 32 for HI and bit 33 for LO; no other bit is set. Register 0, which
/// nothing changes, is in neither.
#[derive(Clone, Copy, Debug, PartialEq, Eq)]
pub struct Block {
    /// The first word, counted from 0.
    pub first: u32,
    /// How many words there are.
    pub words: u32,
    /// The registers that an instruction of it reads, that in the delay slot of its branch included.
    pub reads: u64,
    /// The registers that an instruction of it writes, likewise.
    pub writes: u64,
}
