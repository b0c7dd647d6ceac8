//! How long steps are.
ghost use Rattle.std.specs.Prelude.{◌≡◌, ◌<◌, ◌^◌};
ghost use Rattle.run_definition.specs.Words.{signed_of};
ghost use Rattle.emit_steps.specs.Widths as widths;

use crate::step::Step;
use jvm_definition::{ArrayKind, Constant, Instruction};
use nv_words::signed;

/// The number of bytes of a step: 1 to 5, but for a switch.
pub fn width(step: &Step) -> u32
    requires { widths.width step.now < 2 ^ 32 }
    ensures { result ≡ widths.width step.now }
{
    match step {
        Step::Does(instruction) => instruction_width(instruction),
        Step::Skips(_, _) => 3,
        Step::Leaves(_) => 5,
        Step::Selects(switch) => 13 + 4 * switch.targets.as_slice().len() as u32,
    }
}

pub(crate) fn instruction_width(instruction: &Instruction) -> u32
    ensures { result ≡ widths.instruction_width instruction.now }
{
    match instruction {
        Instruction::Push(constant) => constant_width(*constant),
        Instruction::Load(_, i) | Instruction::Store(_, i) => local_width(*i),
        Instruction::NewArray(kind) => array_width(*kind),
        Instruction::Increment(_, _)
        | Instruction::Get(_, _)
        | Instruction::Put(_, _)
        | Instruction::Length
        | Instruction::CharAt
        | Instruction::Call(_)
        | Instruction::CallHost
        | Instruction::FaultHost => 3,
        _ => 1,
    }
}

fn constant_width(constant: Constant) -> u32
    ensures { result ≡ widths.constant_width constant }
{
    match constant {
        Constant::Null => 1,
        Constant::Int(word) => int_width(signed(word)),
        Constant::Long(_) | Constant::Text(_, _) => 3,
    }
}

// `iconst`, `bipush`, `sipush` and `ldc_w`.
fn int_width(n: i32) -> u32
    ensures { result ≡ widths.int_width n }
{
    if lies_from(-1, 5, n) {
        1
    } else if lies_from(-128, 127, n) {
        2
    } else {
        3
    }
}

/// A number is from `low` to `high`, both included.
pub fn lies_from(low: i32, high: i32, n: i32) -> bool
    ensures { result ≡ widths.lies_from low high n }
{
    low <= n && n <= high
}

fn local_width(i: u8) -> u32
    ensures { result ≡ widths.local_width i }
{
    if i < 4 { 1 } else { 2 }
}

fn array_width(kind: ArrayKind) -> u32
    ensures { result ≡ widths.array_width kind }
{
    match kind {
        ArrayKind::Ints => 2,
        ArrayKind::Pages => 3,
    }
}
