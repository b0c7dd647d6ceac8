//! Straight code is walked from a frame.
ghost use Rattle.std.specs.Prelude.{◌≡◌, ◌<◌, ◌≤◌, ℕ, Some, IfOk, IsSome, MatchOption, length};
ghost use Rattle.jvm_definition.specs.Program.{line_in};
ghost use Rattle.jvm_type_inference.specs.Actions.{program_over};
ghost use Rattle.jvm_type_inference.specs.Blocks as blocks;
ghost use Rattle.jvm_type_inference.specs.Flow.{IsTable};
ghost use Rattle.jvm_type_inference.specs.Frames.{type_frame, IsFormed};

use crate::code::Code;
use crate::frame::Frame;
use crate::walked::Walked;
use jvm_definition::LinkedLine;
use std::alloc::{AllocError, Global};

/// Walks through the block that begins at an offset, from a frame there.
pub fn walk(
    alloc: Global,
    code: &Code<'_>,
    before: &[Option<usize>],
    first: usize,
    frame: &Frame,
) -> Result<Walked, AllocError>
    requires table { IsTable code.now.method.now.lines code.now.starts.items }
    requires parts { blocks.AreBlocks code.now.method.now before.now }
    requires there { IsSome (line_in code.now.method.now.lines first) }
    requires within { first < length code.now.starts.items }
    requires formed { IsFormed code.now.method.now.locals code.now.method.now.stack frame.now }
    ensures walk { IfOk result (blocks.IsWalk (program_over code.now.methods.now)
        code.now.method.now before.now first (type_frame frame.now)) }
    ensures within { IfOk result (λ w. blocks.offset_of w < length code.now.starts.items) }
    ensures sized { IfOk result (blocks.IsEndSized code.now.method.now.locals
        code.now.method.now.stack) }
{
    let mut working = frame.copied()?;
    let mut at = first;
    while let Some(line) = code.line_at(at) {
        if !working.step(alloc, code, &line.instruction)? {
            return Ok(Walked::Fails(at));
        }
        let Some(next) = next_inside(before, line, at) else {
            return Ok(Walked::Ends(at, working));
        };
        if !working.stack.are_typed() {
            return Ok(Walked::Fails(at));
        }
        at = next;
    }
    Ok(Walked::Fails(at))
}

// The offset of the next instruction inside the same block.
#[inline(always)]
fn next_inside(before: &[Option<usize>], line: &LinkedLine, at: usize) -> Option<usize>
    ensures { MatchOption result (blocks.before_in before.now line.now.next ≡ Some at → ⊥)
        (λ n. blocks.before_in before.now n ≡ Some at) }
{
    let next = line.next as usize;
    match before.get(next) {
        Some(Some(x)) if *x == at => Some(next),
        _ => None,
    }
}
