//! The ways from units.
ghost use Rattle.std.specs.Prelude.{◌≡◌, ◌≤◌};
ghost use Rattle.emit_limits.specs.Weights as weights;

use delay_slots::Unit;
use mips_decode::Inst;

/// The most bytes of the way from a unit.
pub fn exit_bytes(unit: &Unit) -> u32
    ensures value { result ≡ weights.exit_bytes unit.now }
    ensures bound { result ≤ 17 }
{
    match *unit {
        Unit::Plain(_) | Unit::Call => 7,
        Unit::Branch { inst, .. } => branch_exit_bytes(inst),
        Unit::SlotMissing(_) | Unit::SlotIsBranch { .. } => 5,
        Unit::Trap { .. } => 1,
    }
}

fn branch_exit_bytes(inst: Inst) -> u32
    ensures value { result ≡ weights.branch_exit_bytes inst }
    ensures bound { result ≤ 17 }
{
    match inst {
        Inst::BranchSign { .. } | Inst::BranchEqual { .. } | Inst::BranchZero { .. } => 17,
        Inst::Jump { .. } => 7,
        Inst::JumpRegister { .. } | Inst::JumpAndLinkRegister { .. } => 4,
        _ => 1,
    }
}
