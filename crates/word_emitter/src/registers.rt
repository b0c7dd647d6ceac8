//! The registers of units that are done one after the other.
ghost use Rattle.std.specs.Prelude.{◌≡◌, ℕ, ◌<◌, ◌==◌, ◌&&◌, not};
ghost use Rattle.std.specs.Int.{bit_at};
ghost use Rattle.std.specs.List.{flat_map};
ghost use Rattle.block_builder.specs.Registers as registers;
ghost use Rattle.block_builder.specs.Registers.{register_set, written_by};
ghost use Rattle.word_emitter.specs.Pieces as pieces;

use block_builder::{read_by, unit_reads, unit_writes, written_by};
use delay_slots::Unit;
use mips_decode::{BranchEqualName, BranchSignName, BranchZeroName, Inst};

/// Whether a set of registers has one.
pub fn has(set: u64, r: u8) -> bool
    requires { r < 32 }
    ensures { result ≡ (bit_at set r == 1) }
{
    set >> r & 1 == 1
}

/// Whether it is a likely branch, which passes its delay slot over where it is not taken.
pub fn is_likely(inst: &Inst) -> bool
    ensures { result ≡ pieces.is_likely inst.now }
{
    match *inst {
        Inst::BranchEqual { name, .. } => matches!(
            name,
            BranchEqualName::Beql | BranchEqualName::Bnel
        ),
        Inst::BranchZero { name, .. } => matches!(
            name,
            BranchZeroName::Blezl | BranchZeroName::Bgtzl
        ),
        Inst::BranchSign { name, .. } => matches!(
            name,
            BranchSignName::Bltzl
                | BranchSignName::Bgezl
                | BranchSignName::Bltzall
                | BranchSignName::Bgezall
        ),
        _ => false,
    }
}

/// The registers of a set that another one lacks.
fn without(set: u64, other: u64) -> u64
    ensures { (r : ℕ) → r < 64 → (bit_at result r == 1)
        ≡ (not (bit_at other r == 1) && (bit_at set r == 1)) }
{
    set & !other
}

/// The registers that a branch writes in its delay slot where it may pass this over.
fn passed_over(inst: Inst, slot: Inst) -> u64
    ensures { (r : ℕ) → (bit_at result r == 1)
        ≡ (pieces.is_likely inst && pieces.is_in r (written_by slot)) }
{
    if is_likely(&inst) {
        written_by(slot)
    } else {
        0
    }
}

/// The registers whose words the code of a unit needs before it.
fn needed_by(unit: &Unit) -> u64
    ensures { (r : ℕ) → r < 64 → (bit_at result r == 1) ≡ pieces.needs unit.now r }
{
    match *unit {
        Unit::Branch { inst, slot } => {
            read_by(inst) | without(read_by(slot), written_by(inst)) | passed_over(inst, slot)
        }
        _ => unit_reads(unit),
    }
}

/// The registers whose words one of the units needs before all of them.
pub fn needed(units: &[Unit]) -> u64
    ensures { (r : ℕ) → r < 64 → (bit_at result r == 1) ≡ pieces.is_needed units.now r }
{
    let mut needed = 0;
    let mut written = 0;
    let mut rest = units;
    while let Some((unit, others)) = rest.split_first() {
        needed |= without(needed_by(unit), written);
        written |= unit_writes(unit);
        rest = others;
    }
    needed
}

/// The registers that one of the units writes.
pub fn written(units: &[Unit]) -> u64
    ensures { result ≡ register_set (flat_map registers.unit_writes units.now) }
{
    let mut writes = 0;
    for unit in units {
        writes |= unit_writes(unit);
    }
    writes
}
