use crate::iconst::Iconst;
use crate::local_name::LocalName;
use crate::pool_name::PoolName;
use crate::short_index::ShortIndex;
use jvm_definition::{
    ArrayName, BranchName, Conversion, IntArithmetic, IntDivision, IntShift, Kept, LongArithmetic,
    LongDivision, LongShift, LookupSwitch, ReturnName, StackName, TableSwitch,
};

/// An instruction with its operands (JVM Specification, 6.5). A branch's target is an offset from the code's start, and a slot
/// of the constant pool is counted from 1.
#[derive(Drop)]
pub enum Op {
    Nop,
    AconstNull,
    Iconst(Iconst),
    Bipush(i8),
    Sipush(i16),
    /// `ldc`, with a slot below 256.
    Ldc(u8),
    /// An instruction with a slot.
    Pool(PoolName, u16),
    /// A load or store, with the local variable's index.
    Local(LocalName, u8),
    /// A load or store whose opcode names the local variable.
    ShortLocal(LocalName, ShortIndex),
    Array(ArrayName),
    Stack(StackName),
    IntArithmetic(IntArithmetic),
    IntDivision(IntDivision),
    IntShift(IntShift),
    LongArithmetic(LongArithmetic),
    LongDivision(LongDivision),
    LongShift(LongShift),
    /// `iinc`, with the local variable's index and what is added.
    Iinc(u8, i8),
    Convert(Conversion),
    Lcmp,
    /// A branch, with its target.
    Branch(BranchName, u32),
    /// `goto_w`, with its target.
    GotoW(u32),
    TableSwitch(Kept<TableSwitch>),
    LookupSwitch(Kept<LookupSwitch>),
    /// A return.
    Give(ReturnName),
    /// `newarray` of ints.
    Newarray,
    Arraylength,
}
