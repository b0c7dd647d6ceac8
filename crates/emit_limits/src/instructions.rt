//! The code of instructions.
ghost use Rattle.std.specs.Prelude.{◌≡◌, ◌≤◌};
ghost use Rattle.emit_limits.specs.Weights as weights;

use mips_decode::{
    ArithmeticImmediateName, ArithmeticName, BranchEqualName, BranchSignName, BranchZeroName, Inst,
    JumpName, LoadName,
};

/// The code of a fault.
pub const FAULT_BYTES: u32 = 12;

/// The code of a call of the system.
pub const CALL_BYTES: u32 = 31;

/// The most bytes of the code of an instruction; of a branch or jump without the code of its delay slot.
pub fn instruction_bytes(inst: Inst) -> u32
    ensures value { result ≡ weights.instruction_bytes inst }
    ensures bound { result ≤ 38 }
{
    match inst {
        Inst::Arithmetic { name, .. } => arithmetic_bytes(name),
        Inst::VariableShift { .. } | Inst::Shift { .. } | Inst::LogicalImmediate { .. } => 10,
        Inst::JumpRegister { .. } => 3,
        Inst::JumpAndLinkRegister { .. } => 9,
        Inst::Syscall { .. } => CALL_BYTES,
        Inst::Break { .. } | Inst::Reserved(_) => FAULT_BYTES,
        Inst::MoveFrom { .. } | Inst::MoveTo { .. } | Inst::LoadUpper { .. } => 6,
        Inst::Product { .. } => 9,
        Inst::BranchSign { name, .. } => branch_sign_bytes(name),
        Inst::Jump { name, .. } => jump_bytes(name),
        Inst::BranchEqual { name, .. } => branch_equal_bytes(name),
        Inst::BranchZero { name, .. } => branch_zero_bytes(name),
        Inst::ArithmeticImmediate { name, .. } => arithmetic_immediate_bytes(name),
        Inst::Load { name, .. } => load_bytes(name),
        Inst::Store { .. } | Inst::LoadLinked { .. } => 16,
        Inst::StoreConditional { .. } => 19,
        Inst::Trap { .. } => 29,
        Inst::TrapImmediate { .. } => 25,
        Inst::Sync { .. } => 1,
        Inst::Float(_) => 0,
    }
}

fn arithmetic_bytes(name: ArithmeticName) -> u32
    ensures value { result ≡ weights.arithmetic_bytes name }
    ensures bound { result ≤ 38 }
{
    match name {
        ArithmeticName::Add => 37,
        ArithmeticName::Sub => 38,
        ArithmeticName::Nor => 12,
        ArithmeticName::Slt => 17,
        ArithmeticName::Sltu => 25,
        _ => 10,
    }
}

fn arithmetic_immediate_bytes(name: ArithmeticImmediateName) -> u32
    ensures value { result ≡ weights.arithmetic_immediate_bytes name }
    ensures bound { result ≤ 37 }
{
    match name {
        ArithmeticImmediateName::Addi => 37,
        ArithmeticImmediateName::Addiu => 10,
        ArithmeticImmediateName::Slti => 17,
        ArithmeticImmediateName::Sltiu => 21,
    }
}

fn load_bytes(name: LoadName) -> u32
    ensures value { result ≡ weights.load_bytes name }
    ensures bound { result ≤ 19 }
{
    match name {
        LoadName::Lwl | LoadName::Lwr => 19,
        _ => 16,
    }
}

fn branch_equal_bytes(name: BranchEqualName) -> u32
    ensures value { result ≡ weights.branch_equal_bytes name }
    ensures bound { result ≤ 28 }
{
    match name {
        BranchEqualName::Beq | BranchEqualName::Bne => 6,
        BranchEqualName::Beql | BranchEqualName::Bnel => 28,
    }
}

fn branch_zero_bytes(name: BranchZeroName) -> u32
    ensures value { result ≡ weights.branch_zero_bytes name }
    ensures bound { result ≤ 25 }
{
    match name {
        BranchZeroName::Blez | BranchZeroName::Bgtz => 3,
        BranchZeroName::Blezl | BranchZeroName::Bgtzl => 25,
    }
}

// Those that link write the link once in each of their ways.
fn branch_sign_bytes(name: BranchSignName) -> u32
    ensures value { result ≡ weights.branch_sign_bytes name }
    ensures bound { result ≤ 37 }
{
    match name {
        BranchSignName::Bltz | BranchSignName::Bgez => 3,
        BranchSignName::Bltzal | BranchSignName::Bgezal => 9,
        BranchSignName::Bltzl | BranchSignName::Bgezl => 25,
        BranchSignName::Bltzall | BranchSignName::Bgezall => 37,
    }
}

fn jump_bytes(name: JumpName) -> u32
    ensures value { result ≡ weights.jump_bytes name }
    ensures bound { result ≤ 14 }
{
    match name {
        JumpName::J => 1,
        JumpName::Jal => 7,
    }
}
