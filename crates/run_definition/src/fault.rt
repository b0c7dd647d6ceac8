/// A fault of a guest instruction, which ends the run.
///
/// `kind` is 1 Fetch, 2 PcAlign, 3 ReadUnmapped, 4 WriteRefused, 5 ReadAlign, 6 WriteAlign, 7 Overflow, 8 Break,
/// 9 Reserved, 10 BranchInSlot or 11 Trap. `pc` is the address of the instruction at fault. `value` is what the kind speaks
/// of: an address, an instruction word, or the code of a BREAK.
#[derive(Clone, Copy, Debug, PartialEq, Eq)]
pub struct Fault {
    pub kind: u32,
    pub pc: u32,
    pub value: u32,
}
