//! The registers that units read and write, as sets: bit r of a set is register r, bit 32 is HI and bit 33 is LO.
ghost use Rattle.std.specs.Prelude.{◌≡◌};
ghost use Rattle.block_builder.specs.Registers as registers;

use delay_slots::Unit;
use mips_decode::{BranchSignName, HiLo, Inst, JumpName, LoadName};

const HI: u64 = 1 << 32;

const LO: u64 = 1 << 33;

/// The register that JAL and the linking branches write.
const LINK: u64 = 1 << 31;

/// r2 is the number of a call of the system, and r4 to r7 are its words.
const READ_BY_CALL: u64 = 1 << 2 | 1 << 4 | 1 << 5 | 1 << 6 | 1 << 7;

/// r2 is the answer of a call of the system.
const WRITTEN_BY_CALL: u64 = 1 << 2;

/// The registers that a unit reads, the instruction in its delay slot included.
pub fn unit_reads(unit: &Unit) -> u64
    ensures { result ≡ registers.register_set (registers.unit_reads unit.now) }
{
    match *unit {
        Unit::Plain(inst) | Unit::SlotMissing(inst) | Unit::SlotIsBranch { inst, .. } => {
            read_by(inst)
        }
        Unit::Branch { inst, slot } => read_by(inst) | read_by(slot),
        Unit::Call => READ_BY_CALL,
        Unit::Trap { .. } => 0,
    }
}

/// The registers that a unit writes, the instruction in its delay slot included.
pub fn unit_writes(unit: &Unit) -> u64
    ensures { result ≡ registers.register_set (registers.unit_writes unit.now) }
{
    match *unit {
        Unit::Plain(inst) | Unit::SlotMissing(inst) | Unit::SlotIsBranch { inst, .. } => {
            written_by(inst)
        }
        Unit::Branch { inst, slot } => written_by(inst) | written_by(slot),
        Unit::Call => WRITTEN_BY_CALL,
        Unit::Trap { .. } => 0,
    }
}

/// The registers that an instruction reads.
pub fn read_by(inst: Inst) -> u64
    ensures { result ≡ registers.register_set (registers.read_by inst) }
{
    match inst {
        Inst::Arithmetic { rs, rt, .. }
        | Inst::VariableShift { rs, rt, .. }
        | Inst::Product { rs, rt, .. }
        | Inst::BranchEqual { rs, rt, .. }
        | Inst::Store { rs, rt, .. }
        | Inst::Trap { rs, rt, .. }
        | Inst::StoreConditional { rs, rt, .. } => general(rs) | general(rt),
        Inst::JumpRegister { rs }
        | Inst::JumpAndLinkRegister { rs, .. }
        | Inst::MoveTo { rs, .. }
        | Inst::BranchSign { rs, .. }
        | Inst::BranchZero { rs, .. }
        | Inst::ArithmeticImmediate { rs, .. }
        | Inst::LogicalImmediate { rs, .. }
        | Inst::TrapImmediate { rs, .. }
        | Inst::LoadLinked { rs, .. } => general(rs),
        Inst::Shift { rt, .. } => general(rt),
        Inst::MoveFrom { name, .. } => special(name),
        Inst::Load { name, rs, rt, .. } => read_by_load(name, rs, rt),
        Inst::Syscall { .. } => READ_BY_CALL,
        Inst::Break { .. }
        | Inst::Jump { .. }
        | Inst::LoadUpper { .. }
        | Inst::Sync { .. }
        | Inst::Reserved(_)
        | Inst::Float(_) => 0,
    }
}

/// LWL and LWR keep a part of rt.
fn read_by_load(name: LoadName, rs: u8, rt: u8) -> u64
    ensures { result ≡ registers.register_set (registers.read_by_load name rs rt) }
{
    match name {
        LoadName::Lwl | LoadName::Lwr => general(rs) | general(rt),
        LoadName::Lb | LoadName::Lh | LoadName::Lw | LoadName::Lbu | LoadName::Lhu => general(rs),
    }
}

/// The registers that an instruction writes, if it does not fault.
pub fn written_by(inst: Inst) -> u64
    ensures { result ≡ registers.register_set (registers.written_by inst) }
{
    match inst {
        Inst::Arithmetic { rd, .. }
        | Inst::VariableShift { rd, .. }
        | Inst::Shift { rd, .. }
        | Inst::JumpAndLinkRegister { rd, .. }
        | Inst::MoveFrom { rd, .. } => general(rd),
        Inst::ArithmeticImmediate { rt, .. }
        | Inst::LogicalImmediate { rt, .. }
        | Inst::LoadUpper { rt, .. }
        | Inst::Load { rt, .. }
        | Inst::LoadLinked { rt, .. }
        | Inst::StoreConditional { rt, .. } => general(rt),
        Inst::MoveTo { name, .. } => special(name),
        Inst::Product { .. } => HI | LO,
        Inst::BranchSign { name, .. } => written_by_branch_sign(name),
        Inst::Jump { name, .. } => written_by_jump(name),
        Inst::Syscall { .. } => WRITTEN_BY_CALL,
        Inst::JumpRegister { .. }
        | Inst::Break { .. }
        | Inst::BranchEqual { .. }
        | Inst::BranchZero { .. }
        | Inst::Store { .. }
        | Inst::Trap { .. }
        | Inst::TrapImmediate { .. }
        | Inst::Sync { .. }
        | Inst::Reserved(_)
        | Inst::Float(_) => 0,
    }
}

fn written_by_branch_sign(name: BranchSignName) -> u64
    ensures { result ≡ registers.register_set (registers.written_by_branch_sign name) }
{
    match name {
        BranchSignName::Bltzal
        | BranchSignName::Bgezal
        | BranchSignName::Bltzall
        | BranchSignName::Bgezall => LINK,
        BranchSignName::Bltz
        | BranchSignName::Bgez
        | BranchSignName::Bltzl
        | BranchSignName::Bgezl => 0,
    }
}

fn written_by_jump(name: JumpName) -> u64
    ensures { result ≡ registers.register_set (registers.written_by_jump name) }
{
    match name {
        JumpName::Jal => LINK,
        JumpName::J => 0,
    }
}

/// A general register alone, by its number of five bits.
fn general(number: u8) -> u64
    ensures { result ≡ registers.register_bit (registers.general number) }
{
    let bit = number % 32;
    if bit == 0 { 0 } else { 1 << bit }
}

/// HI or LO alone.
fn special(name: HiLo) -> u64
    ensures { result ≡ registers.register_bit (registers.special name) }
{
    match name {
        HiLo::Hi => HI,
        HiLo::Lo => LO,
    }
}
