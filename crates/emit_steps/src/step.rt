use jvm_definition::{BranchName, Instruction, TableSwitch};

/// One instruction of code that is emitted. Where it goes on is told by the steps after it, and not by an offset.
#[derive(Drop)]
pub enum Step {
    /// An instruction that is no branch and no switch.
    Does(Instruction),
    /// A branch of three bytes over so many of the steps after it.
    Skips(BranchName, u32),
    /// `goto_w` to an offset of the method.
    Leaves(u32),
    /// `tableswitch` to offsets of the method. It is at an offset that leaves 3 modulo 4, so it needs no padding.
    Selects(TableSwitch),
}
