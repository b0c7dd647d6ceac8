//! The local variables that a method names (JVM Specification, 2.6.1).
ghost use Rattle.std.specs.Prelude.{◌≡◌, ◌≤◌};
ghost use Rattle.jvm_steps.specs.Named as named;

use jvm_definition::{Instruction, LinkedLine, LinkedMethod};

/// How many local variables the frames of a method need: its parameters, and those up to the greatest that its code names. No
/// instruction sees the others.
pub fn named_locals(method: &LinkedMethod) -> u16
    ensures { result ≡ named.named_locals method.now }
{
    let parameters = method.parameters.as_slice().len();
    let named = usize::from(locals_named_in(method.lines.as_slice())).max(parameters);
    usize::from(method.locals).min(named) as u16
}

fn locals_named_in(lines: &[LinkedLine]) -> u16
    ensures { result ≡ named.locals_named_in lines.now }
{
    let mut locals = 0;
    let mut rest = lines;
    while let Some((line, others)) = rest.split_first() {
        locals = locals_named_by(&line.instruction).max(locals);
        rest = others;
    }
    locals
}

fn locals_named_by(instruction: &Instruction) -> u16
    ensures value { result ≡ named.locals_named_by instruction.now }
    ensures few { result ≤ 256 }
{
    match *instruction {
        Instruction::Load(_, i) | Instruction::Store(_, i) | Instruction::Increment(i, _) => {
            u16::from(i) + 1
        }
        _ => 0,
    }
}
