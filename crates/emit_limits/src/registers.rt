//! How many registers units read and write.
ghost use Rattle.std.specs.Prelude.{◌≡◌, ℕ, ◌≤◌, length};
ghost use Rattle.block_builder.specs.Registers as registers;
ghost use Rattle.emit_limits.specs.Weights as weights;

use delay_slots::Unit;
use mips_decode::{BranchSignName, Inst, JumpName, LoadName};

/// The registers that a piece fetches or puts back for a unit, at most.
pub fn register_count(unit: &Unit) -> u32
    ensures value { result ≡ weights.register_count unit.now }
    ensures bound { result ≤ 16 }
{
    match *unit {
        Unit::Plain(inst) | Unit::SlotMissing(inst) | Unit::SlotIsBranch { inst, .. } => {
            read_count(inst) + write_count(inst)
        }
        Unit::Branch { inst, slot } => {
            read_count(inst) + write_count(inst) + read_count(slot) + 2 * write_count(slot)
        }
        Unit::Call => 6,
        Unit::Trap { .. } => 0,
    }
}

fn read_count(inst: Inst) -> u32
    ensures value { result ≡ length (registers.read_by inst) }
    ensures bound { result ≤ 5 }
{
    match inst {
        Inst::Syscall { .. } => 5,
        Inst::Arithmetic { .. }
        | Inst::VariableShift { .. }
        | Inst::Product { .. }
        | Inst::BranchEqual { .. }
        | Inst::Store { .. }
        | Inst::Trap { .. }
        | Inst::StoreConditional { .. } => 2,
        Inst::Shift { .. }
        | Inst::JumpRegister { .. }
        | Inst::JumpAndLinkRegister { .. }
        | Inst::MoveFrom { .. }
        | Inst::MoveTo { .. }
        | Inst::BranchSign { .. }
        | Inst::BranchZero { .. }
        | Inst::ArithmeticImmediate { .. }
        | Inst::LogicalImmediate { .. }
        | Inst::TrapImmediate { .. }
        | Inst::LoadLinked { .. } => 1,
        Inst::Load { name, .. } => load_count(name),
        Inst::Break { .. }
        | Inst::Jump { .. }
        | Inst::LoadUpper { .. }
        | Inst::Sync { .. }
        | Inst::Reserved(_)
        | Inst::Float(_) => 0,
    }
}

// LWL and LWR keep a part of rt.
fn load_count(name: LoadName) -> u32
    ensures value { (rs rt : ℕ) → result ≡ length (registers.read_by_load name rs rt) }
    ensures bound { result ≤ 2 }
{
    match name {
        LoadName::Lwl | LoadName::Lwr => 2,
        _ => 1,
    }
}

fn write_count(inst: Inst) -> u32
    ensures value { result ≡ length (registers.written_by inst) }
    ensures bound { result ≤ 2 }
{
    match inst {
        Inst::Product { .. } => 2,
        Inst::Arithmetic { .. }
        | Inst::VariableShift { .. }
        | Inst::Shift { .. }
        | Inst::JumpAndLinkRegister { .. }
        | Inst::Syscall { .. }
        | Inst::MoveFrom { .. }
        | Inst::MoveTo { .. }
        | Inst::ArithmeticImmediate { .. }
        | Inst::LogicalImmediate { .. }
        | Inst::LoadUpper { .. }
        | Inst::Load { .. }
        | Inst::LoadLinked { .. }
        | Inst::StoreConditional { .. } => 1,
        Inst::BranchSign { name, .. } => sign_link_count(name),
        Inst::Jump { name, .. } => jump_link_count(name),
        Inst::JumpRegister { .. }
        | Inst::Break { .. }
        | Inst::BranchEqual { .. }
        | Inst::BranchZero { .. }
        | Inst::Store { .. }
        | Inst::Trap { .. }
        | Inst::TrapImmediate { .. }
        | Inst::Sync { .. }
        | Inst::Reserved(_)
        | Inst::Float(_) => 0,
    }
}

fn sign_link_count(name: BranchSignName) -> u32
    ensures value { result ≡ length (registers.written_by_branch_sign name) }
    ensures bound { result ≤ 1 }
{
    match name {
        BranchSignName::Bltzal
        | BranchSignName::Bgezal
        | BranchSignName::Bltzall
        | BranchSignName::Bgezall => 1,
        BranchSignName::Bltz
        | BranchSignName::Bgez
        | BranchSignName::Bltzl
        | BranchSignName::Bgezl => 0,
    }
}

fn jump_link_count(name: JumpName) -> u32
    ensures value { result ≡ length (registers.written_by_jump name) }
    ensures bound { result ≤ 1 }
{
    match name {
        JumpName::Jal => 1,
        JumpName::J => 0,
    }
}
