//! The definition of the guest machine: the instructions of MIPS II and one step of a program (MIPS I and MIPS II, user mode, integer part).
#![tactic(auto)]

mod asm_fault;
mod inst;
mod names;

pub use asm_fault::AsmFault;
pub use inst::Inst;
pub use names::{
    ArithmeticImmediateName, ArithmeticName, BranchEqualName, BranchSignName, BranchZeroName, HiLo,
    JumpName, LoadName, LogicalImmediateName, ProductName, ShiftName, StoreName, TrapImmediateName,
    TrapName, VariableShiftName,
};
