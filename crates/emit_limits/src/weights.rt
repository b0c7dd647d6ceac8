//! What units cost.
ghost use Rattle.std.specs.Prelude.{◌≡◌, ◌≤◌};
ghost use Rattle.emit_limits.specs.Weights as weights;

use crate::exits::exit_bytes;
use crate::instructions::{CALL_BYTES, FAULT_BYTES, instruction_bytes};
use crate::registers::register_count;
use delay_slots::Unit;

/// The bytes that are weighed for the guard of a word.
const GUARD_BYTES: u32 = 128;

/// The most bytes of code that a word takes in the method of a span by its unit. With a meter, a guard is before its code.
pub fn weight_of(metered: bool, unit: &Unit) -> u32
    ensures value { result ≡ weights.weight_of metered unit.now }
    ensures bound { result ≤ 540 }
{
    if metered {
        weight(unit) + GUARD_BYTES
    } else {
        weight(unit)
    }
}

/// The most bytes of code that a unit takes in the method of a span: its code over the fields and over local variables, each with the
/// way from it, and its share of what a piece fetches and puts back.
pub fn weight(unit: &Unit) -> u32
    ensures value { result ≡ weights.weight unit.now }
    ensures bound { result ≤ 412 }
{
    2 * (unit_bytes(unit) + exit_bytes(unit)) + 5 * register_count(unit)
}

fn unit_bytes(unit: &Unit) -> u32
    ensures value { result ≡ weights.unit_bytes unit.now }
    ensures bound { result ≤ 76 }
{
    match *unit {
        Unit::Plain(inst) => instruction_bytes(inst),
        Unit::Branch { inst, slot } => instruction_bytes(inst) + instruction_bytes(slot),
        Unit::SlotMissing(inst) | Unit::SlotIsBranch { inst, .. } => {
            instruction_bytes(inst) + FAULT_BYTES
        }
        Unit::Call => CALL_BYTES,
        Unit::Trap { .. } => FAULT_BYTES,
    }
}
