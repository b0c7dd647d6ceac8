//! Code as bytes.
ghost use Rattle.std.specs.Prelude.{◌≡◌, ℕ, List, None, IfOk};
ghost use Rattle.class_definition.specs.declared.line.Line.{Line};
ghost use Rattle.class_definition.specs.Code as format;
ghost use Rattle.jvm_code.specs.Writing.{AreCode};

use crate::instruction_writing::append_instruction;
use class_definition::Line;
use std::alloc::{AllocError, Global};

/// Memory ran out.
pub type NoMemory = AllocError;

/// The bytes of code, from which [`decode_ops`](crate::decode_ops) reads these lines and no others.
///
/// There is a line. The first one is at 0 and each other where the one before ends, by its [`size`](crate::size); the last
/// one ends at 65,535 or below. Each target is a line's offset, and a branch with an offset of two bytes reaches it. A
/// `tableswitch` has a target and no key above the greatest `i32`; the keys of a `lookupswitch` rise.
///
/// # Errors
///
/// NoMemory.
pub fn encode_ops(alloc: Global, lines: &[Line]) -> Result<Vec<u8>, NoMemory>
    requires { AreCode lines.now }
    ensures lines { IfOk result (λ code. format.Lines code.items lines.now) }
    ensures only_lines { IfOk result (λ code. (others : List Line) → format.Lines code.items others
        → others ≡ lines.now) }
    ensures only_bytes { IfOk result (λ code. (others : List ℕ) → format.Lines others lines.now
        → others ≡ code.items) }
    ensures sound { IfOk result (λ code. format.code_fault code.items ≡ None) }
{
    let mut code = Vec::new(alloc);
    let mut rest = lines;
    while let Some((line, others)) = rest.split_first() {
        append_instruction(&mut code, line.at, &line.op)?;
        rest = others;
    }
    Ok(code)
}
