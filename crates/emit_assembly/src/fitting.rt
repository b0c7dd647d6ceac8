//! Code that can be made into the bytes of a method.
ghost use Rattle.std.specs.Prelude.{◌≡◌, ◌+◌, ◌<◌, ◌&&◌, suc, nat_lt, nat_le, length, drop, IfOk};
ghost use Rattle.emit_steps.specs.Widths.{bytes_before, size};
ghost use Rattle.emit_assembly.specs.Assembling.{can_be_assembled, is_method};
ghost use Rattle.emit_assembly.specs.Assembling as assembling;
ghost use Rattle.emit_assembly.specs.Operations.{AreEnds};
ghost use Rattle.emit_assembly.specs.Operations as operations;

use crate::eligible::{has_operation, switch_has_operation};
use crate::ends::ends_of;
use crate::references::References;
use crate::starts::{are_starts, is_start};
use constant_pool::NoMemory;
use emit_steps::{Step, code_size};
use std::alloc::Global;

/// A branch of 3 bytes goes less than 2^15 bytes from its own offset.
const REACH: u32 = (1 << 15) - 3;

/// Whether code can be made into the bytes of a method by [`method_code`](crate::method_code): each instruction has a form in a class
/// file, branches are short, no switch needs padding, there is a step, all steps together have at most 65,535 bytes, and each target is
/// a step of its own.
///
/// # Errors
///
/// There was not enough memory.
pub fn is_code(alloc: Global, code: &[Step], references: &References) -> Result<bool, NoMemory>
    ensures { IfOk result (λ b. b
        ≡ (can_be_assembled references.now code.now && is_method code.now)) }
{
    if is_short(code) {
        let ends = ends_of(alloc, code)?;
        Ok(steps_fit(code, &ends, references))
    } else {
        Ok(false)
    }
}

// There is a step, and there are at most 65,535 bytes.
fn is_short(code: &[Step]) -> bool
    ensures { result ≡ (nat_lt 0 (length code.now) && nat_le (size code.now) 65535) }
{
    match code_size(code) {
        Some(size) => !code.is_empty() && size <= 65_535,
        None => false,
    }
}

fn steps_fit(code: &[Step], ends: &[u32], references: &References) -> bool
    requires some { 0 < length code.now }
    requires ends { AreEnds code.now ends.now }
    ensures { result ≡ operations.steps_fit references.now code.now 0 code.now }
{
    let mut at = 0;
    for (i, _step) in code.iter().enumerate() {
        if !step_fits(code, i, at, ends, references) {
            return false;
        }
        at = ends[i];
    }
    true
}

// The i-th step, which stands at an offset.
fn step_fits(code: &[Step], i: usize, at: u32, ends: &[u32], references: &References) -> bool
    requires within { i < length code.now }
    requires ends { AreEnds code.now ends.now }
    requires at { at ≡ bytes_before code.now i }
    ensures { result ≡ operations.first_fits references.now code.now at (drop i code.now) }
{
    match &code[i] {
        Step::Does(instruction) => has_operation(instruction, references),
        Step::Skips(_, k) => skips_to_start(code, i, *k as usize, ends),
        Step::Leaves(target) => is_start(code, ends, *target),
        Step::Selects(switch) => {
            at % 4 == 3 && switch_has_operation(switch) && are_starts(code, ends, switch)
        }
    }
}

// The i-th step has so many others behind it, and a branch over them is short and comes to a step.
fn skips_to_start(code: &[Step], i: usize, k: usize, ends: &[u32]) -> bool
    requires within { i < length code.now }
    requires ends { AreEnds code.now ends.now }
    ensures { result ≡ (assembling.reaches (drop (suc i) code.now) k
        && operations.is_start code.now (bytes_before code.now (suc (i + k)))) }
{
    reaches(code, i, k, ends) && is_start(code, ends, ends[i + k])
}

fn reaches(code: &[Step], i: usize, k: usize, ends: &[u32]) -> bool
    requires within { i < length code.now }
    requires ends { AreEnds code.now ends.now }
    ensures { result ≡ assembling.reaches (drop (suc i) code.now) k }
{
    k < code.len() - i && ends[i + k] - ends[i] < REACH
}
