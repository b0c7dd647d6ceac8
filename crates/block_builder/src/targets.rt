//! Where branches and jumps go.
ghost use Rattle.std.specs.Prelude.{◌≡◌};
ghost use Rattle.block_builder.specs.Leaders as leaders;

use delay_slots::Unit;
use mips_decode::{Inst, branch_target, jump_target};

/// The target of a unit whose instruction is a branch, J or JAL, for the unit at the address `at`, whatever is in its delay
/// slot; and none for every other unit.
pub fn direct(unit: &Unit, at: u32) -> Option<u32>
    ensures { result ≡ leaders.direct unit.now at }
{
    match *unit {
        Unit::Branch { inst, .. } | Unit::SlotMissing(inst) | Unit::SlotIsBranch { inst, .. } => {
            inst_target(inst, at)
        }
        Unit::Plain(_) | Unit::Call | Unit::Trap { .. } => None,
    }
}

/// The target of a branch, J or JAL at the address `at`; JR and JALR go where a register says.
fn inst_target(inst: Inst, at: u32) -> Option<u32>
    ensures { result ≡ leaders.inst_target inst at }
{
    match inst {
        Inst::BranchSign { imm, .. }
        | Inst::BranchEqual { imm, .. }
        | Inst::BranchZero { imm, .. } => Some(branch_target(at, imm)),
        Inst::Jump { index, .. } => Some(jump_target(at, index)),
        _ => None,
    }
}

/// Whether the program goes on with the next word after the unit's instruction.
pub fn is_plain(unit: &Unit) -> bool
    ensures { result ≡ leaders.is_plain unit.now }
{
    matches!(*unit, Unit::Plain(_))
}

/// How many words a unit has: its own, and that of its delay slot.
pub fn words_of(unit: &Unit) -> usize
    ensures { result ≡ leaders.words_of unit.now }
{
    match *unit {
        Unit::Branch { .. } => 2,
        _ => 1,
    }
}
