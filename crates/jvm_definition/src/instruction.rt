use crate::array_kind::ArrayKind;
use crate::constant::Constant;
use crate::kind::Kind;
use crate::local_kind::LocalKind;
use crate::{
    ArrayName, BranchName, Conversion, IntArithmetic, IntDivision, IntShift, Kept, LongArithmetic,
    LongDivision, LongShift, LookupSwitch, ReturnName, StackName, TableSwitch,
};

/// An instruction with what it names (JVM Specification, 6.5). Fields and methods are numbered over all classes in their order;
/// targets are offsets from the code's start.
#[derive(Drop)]
pub enum Instruction {
    Nop,
    Push(Constant),
    Load(LocalKind, u8),
    Store(LocalKind, u8),
    Array(ArrayName),
    Stack(StackName),
    IntArithmetic(IntArithmetic),
    IntDivision(IntDivision),
    IntShift(IntShift),
    LongArithmetic(LongArithmetic),
    LongDivision(LongDivision),
    LongShift(LongShift),
    /// `iinc`: a local variable, and the word that is added to it.
    Increment(u8, u32),
    Convert(Conversion),
    LongCompare,
    /// A branch, `goto_w` too, with its target.
    Branch(BranchName, u32),
    TableSwitch(Kept<TableSwitch>),
    LookupSwitch(Kept<LookupSwitch>),
    /// `getstatic`: a field, and the field's type.
    Get(u32, Kind),
    /// `putstatic`: a field, and the field's type.
    Put(u32, Kind),
    /// `String.length`.
    Length,
    /// `String.charAt`.
    CharAt,
    /// A call of a static method.
    Call(u32),
    /// `Host.call`: a call of the system.
    CallHost,
    /// `Host.fault`: the program's end in a fault.
    FaultHost,
    Return(ReturnName),
    NewArray(ArrayKind),
    ArrayLength,
    /// An instruction whose constant is of another kind than it needs, or a return of another kind than its method's.
    Wrong,
}
