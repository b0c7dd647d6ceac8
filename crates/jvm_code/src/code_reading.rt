//! Code from bytes.
ghost use Rattle.std.specs.Prelude.{◌≡◌, ◌≤◌, ◌<◌, ◌^◌, length};
ghost use Rattle.class_format.specs.Gives.{Gives};
ghost use Rattle.class_definition.specs.Code as format;

use crate::instruction_reading::instruction_of;
use class_definition::Line;
use class_format::Failure;
use std::alloc::Global;

/// The lines of code of at most 65,535 bytes.
pub fn lines_of(alloc: Global, code: &[u8]) -> Result<Vec<Line>, Failure>
    requires { length code.now ≤ 65535 }
    ensures { Gives (λ x. x.items) result
        (format.lines_from (length code.now) (length code.now) code.now) }
{
    let mut lines = Vec::new(alloc);
    let mut rest = code;
    for _ in 0..code.len() {
        let left = rest.len();
        if left == 0 {
            return Ok(lines);
        }
        let at = code.len().saturating_sub(left) as u32;
        let (op, others) = instruction_of(alloc, at, rest)?;
        lines.push(Line { at, op })?;
        rest = others;
    }
    Ok(lines)
}
