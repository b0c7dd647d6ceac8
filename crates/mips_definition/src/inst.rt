use crate::names::{
    ArithmeticImmediateName, ArithmeticName, BranchEqualName, BranchSignName, BranchZeroName, HiLo,
    JumpName, LoadName, LogicalImmediateName, ProductName, ShiftName, StoreName, TrapImmediateName,
    TrapName, VariableShiftName,
};

/// What one word means as an integer instruction of MIPS II.
///
/// The instructions of one form of the instruction set share a variant, with their name beside the fields of the word:
/// `rs`, `rt` and `rd` number a register below 32, `sa` is a shift amount below 32, `imm` is the low half of the word,
/// `index` has 26 bits and `code` has 20, or 10 in a trap. A field that a form does not list is 0 in the word, or chooses the name.
#[derive(Clone, Copy, PartialEq, Eq)]
pub enum Inst {
    /// ADD to SLTU: rd becomes a function of rs and rt.
    Arithmetic {
        name: ArithmeticName,
        rs: u8,
        rt: u8,
        rd: u8,
    },
    /// SLLV, SRLV, SRAV: rd becomes rt shifted by rs.
    VariableShift {
        name: VariableShiftName,
        rs: u8,
        rt: u8,
        rd: u8,
    },
    /// SLL, SRL, SRA: rd becomes rt shifted by sa.
    Shift {
        name: ShiftName,
        rt: u8,
        rd: u8,
        sa: u8,
    },
    /// JR: goes to rs.
    JumpRegister {
        rs: u8,
    },
    /// JALR: goes to rs with the link in rd.
    JumpAndLinkRegister {
        rs: u8,
        rd: u8,
    },
    /// SYSCALL: calls the system.
    Syscall {
        code: u32,
    },
    /// BREAK: faults.
    Break {
        code: u32,
    },
    /// MFHI, MFLO: rd becomes HI or LO.
    MoveFrom {
        name: HiLo,
        rd: u8,
    },
    /// MTHI, MTLO: HI or LO becomes rs.
    MoveTo {
        name: HiLo,
        rs: u8,
    },
    /// MULT to DIVU: HI and LO become the product or the quotient of rs and rt.
    Product {
        name: ProductName,
        rs: u8,
        rt: u8,
    },
    /// BLTZ to BGEZALL: goes to its target by the sign of rs.
    BranchSign {
        name: BranchSignName,
        rs: u8,
        imm: u16,
    },
    /// J, JAL: goes to its target.
    Jump {
        name: JumpName,
        index: u32,
    },
    /// BEQ to BNEL: goes to its target where rs and rt are equal, or are not.
    BranchEqual {
        name: BranchEqualName,
        rs: u8,
        rt: u8,
        imm: u16,
    },
    /// BLEZ to BGTZL: goes to its target where rs is at most zero, or above it.
    BranchZero {
        name: BranchZeroName,
        rs: u8,
        imm: u16,
    },
    /// ADDI to SLTIU: rt becomes a function of rs and the signed immediate.
    ArithmeticImmediate {
        name: ArithmeticImmediateName,
        rs: u8,
        rt: u8,
        imm: u16,
    },
    /// ANDI, ORI, XORI: rt becomes a function of rs and the unsigned immediate.
    LogicalImmediate {
        name: LogicalImmediateName,
        rs: u8,
        rt: u8,
        imm: u16,
    },
    /// LUI: rt becomes the immediate in its upper half.
    LoadUpper {
        rt: u8,
        imm: u16,
    },
    /// LB to LWR: rt becomes what is in memory at rs and the signed immediate.
    Load {
        name: LoadName,
        rs: u8,
        rt: u8,
        imm: u16,
    },
    /// SB to SWR: what rt holds goes to memory at rs and the signed immediate.
    Store {
        name: StoreName,
        rs: u8,
        rt: u8,
        imm: u16,
    },
    /// TGE to TNE: faults where rs and rt compare so.
    Trap {
        name: TrapName,
        rs: u8,
        rt: u8,
        code: u16,
    },
    /// TGEI to TNEI: faults where rs and the signed immediate compare so.
    TrapImmediate {
        name: TrapImmediateName,
        rs: u8,
        imm: u16,
    },
    /// SYNC: does nothing.
    Sync {
        sa: u8,
    },
    /// LL: as LW, and links its address.
    LoadLinked {
        rs: u8,
        rt: u8,
        imm: u16,
    },
    /// SC: stores as SW where its address is linked, and rt becomes whether it did.
    StoreConditional {
        rs: u8,
        rt: u8,
        imm: u16,
    },
    /// A word that is no integer instruction of MIPS II.
    Reserved(u32),
    /// A word of the floating-point coprocessor: its opcode is 11, 31 or 39 (hexadecimal).
    Float(u32),
}
