use mips_decode::{
    ArithmeticImmediateName, ArithmeticName, BranchEqualName, BranchSignName, BranchZeroName, HiLo,
    JumpName, LoadName, LogicalImmediateName, ProductName, ShiftName, StoreName, TrapImmediateName,
    TrapName, VariableShiftName,
};

/// The first word of an instruction's line. Those whose operands have one form share a variant.
#[derive(Clone, Copy)]
pub enum Mnemonic {
    /// ADD to SLTU: `$rd,$rs,$rt`.
    Arithmetic(ArithmeticName),
    /// SLLV, SRLV, SRAV: `$rd,$rt,$rs`.
    VariableShift(VariableShiftName),
    /// SLL, SRL, SRA: `$rd,$rt,sa`.
    Shift(ShiftName),
    /// JR: `$rs`.
    JumpRegister,
    /// JALR: `$rd,$rs`.
    JumpAndLinkRegister,
    /// SYSCALL: `code`.
    Syscall,
    /// BREAK: `code`.
    Break,
    /// MFHI, MFLO: `$rd`.
    MoveFrom(HiLo),
    /// MTHI, MTLO: `$rs`.
    MoveTo(HiLo),
    /// MULT to DIVU: `$rs,$rt`.
    Product(ProductName),
    /// BLTZ to BGEZALL: `$rs,to`.
    BranchSign(BranchSignName),
    /// J, JAL: `to`.
    Jump(JumpName),
    /// BEQ to BNEL: `$rs,$rt,to`.
    BranchEqual(BranchEqualName),
    /// BLEZ to BGTZL: `$rs,to`.
    BranchZero(BranchZeroName),
    /// ADDI to SLTIU: `$rt,$rs,imm`.
    ArithmeticImmediate(ArithmeticImmediateName),
    /// ANDI, ORI, XORI: `$rt,$rs,imm`.
    LogicalImmediate(LogicalImmediateName),
    /// LUI: `$rt,imm`.
    LoadUpper,
    /// LB to LWR: `$rt,imm($rs)`.
    Load(LoadName),
    /// SB to SWR: `$rt,imm($rs)`.
    Store(StoreName),
    /// TGE to TNE: `$rs,$rt,code`.
    Trap(TrapName),
    /// TGEI to TNEI: `$rs,imm`.
    TrapImmediate(TrapImmediateName),
    /// SYNC: `sa`.
    Sync,
    /// LL: `$rt,imm($rs)`.
    LoadLinked,
    /// SC: `$rt,imm($rs)`.
    StoreConditional,
}
