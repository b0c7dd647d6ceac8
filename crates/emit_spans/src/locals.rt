//! The local variables that code uses.
ghost use Rattle.std.specs.Prelude.{◌≡◌, ◌≤◌};
ghost use Rattle.emit_spans.specs.Locals as emitted;

use emit_steps::Step;
use jvm_definition::Instruction;

/// How many local variables code uses: one more than the greatest that it names.
pub fn locals_of(code: &[Step]) -> u16
    ensures { result ≡ emitted.locals_of code.now }
{
    let mut locals = 0;
    let mut rest = code;
    while let Some((step, others)) = rest.split_first() {
        locals = step_locals(step).max(locals);
        rest = others;
    }
    locals
}

fn step_locals(step: &Step) -> u16
    ensures value { result ≡ emitted.step_locals step.now }
    ensures few { result ≤ 256 }
{
    match step {
        Step::Does(instruction) => instruction_locals(instruction),
        _ => 0,
    }
}

fn instruction_locals(instruction: &Instruction) -> u16
    ensures value { result ≡ emitted.instruction_locals instruction.now }
    ensures few { result ≤ 256 }
{
    match *instruction {
        Instruction::Load(_, i) | Instruction::Store(_, i) | Instruction::Increment(i, _) => {
            u16::from(i) + 1
        }
        _ => 0,
    }
}
