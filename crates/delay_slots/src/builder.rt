//! From the words of a range to its units.
ghost use Rattle.std.specs.Prelude.{◌≡◌, ◌<◌, IfOk, IsTrue, length};
ghost use Rattle.mips_definition.specs.Table.{inst};
ghost use Rattle.delay_slots.specs.Units.{is_branch, branch_unit, unit_of, units_of, HasNoFloat};

use crate::range_units::RangeUnits;
use crate::unit::Unit;
use mips_decode::fault_kinds::{BREAK, RESERVED};
use mips_decode::{Inst, decode};
use std::alloc::{AllocError, Global};

/// Out of memory, the one error of `units`.
pub type NoMemory = AllocError;

/// The units of the words of one whole range of code, one for each word in order.
///
/// The range is not empty and has no word of the floating-point coprocessor.
///
/// # Errors
/// Out of memory for the words, which the units keep.
pub fn units(alloc: Global, words: &[u32]) -> Result<RangeUnits, NoMemory>
    requires some_words { 0 < length words.now }
    requires no_float { HasNoFloat words.now }
    ensures { IfOk result (λ units. units ≡ units_of words.now) }
{
    let words = Vec::from_slice(alloc, words)?;
    Ok(RangeUnits::of(alloc, words))
}

/// The unit of an instruction before the words that follow it in its range.
pub fn unit(inst: Inst, following: &[u32]) -> Unit
    ensures { result ≡ unit_of inst following.now }
{
    match inst {
        Inst::Syscall { .. } => Unit::Call,
        Inst::Break { code } => Unit::Trap {
            kind: BREAK,
            value: code,
        },
        Inst::Reserved(word) => Unit::Trap {
            kind: RESERVED,
            value: word,
        },
        _ if is_branch(&inst) => branch(inst, following),
        _ => Unit::Plain(inst),
    }
}

/// The unit of a branch or jump before the words that follow it in its range.
fn branch(inst: Inst, following: &[u32]) -> Unit
    ensures { result ≡ branch_unit inst following.now }
{
    match following.first() {
        None => Unit::SlotMissing(inst),
        Some(word) => {
            let slot = decode(*word);
            if is_branch(&slot) {
                Unit::SlotIsBranch { inst, word: *word }
            } else {
                Unit::Branch { inst, slot }
            }
        }
    }
}

/// Whether the instruction is a branch or jump, which has a delay slot.
fn is_branch(inst: &Inst) -> bool
    ensures { result ≡ is_branch inst.now }
{
    matches!(
        *inst,
        Inst::JumpRegister { .. }
            | Inst::JumpAndLinkRegister { .. }
            | Inst::BranchSign { .. }
            | Inst::Jump { .. }
            | Inst::BranchEqual { .. }
            | Inst::BranchZero { .. }
    )
}
