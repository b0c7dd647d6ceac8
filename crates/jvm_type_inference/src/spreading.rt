//! The frames inside the blocks of a method's code, from those at the first instructions of the blocks.
ghost use Rattle.std.specs.Prelude.{◌≡◌, ◌<◌, ℕ, suc, List, Option, None, Some, IfOk, IfSome, length, slice_index_or, slice_set};
ghost use Rattle.jvm_type_inference.specs.declared.frame.Frame.{Frame};
ghost use Rattle.jvm_type_inference.specs.Actions.{program_over};
ghost use Rattle.jvm_type_inference.specs.Blocks.{AreBlocks, before_in};
ghost use Rattle.jvm_type_inference.specs.Flow as flow;
ghost use Rattle.jvm_type_inference.specs.Frames.{IsSized, frame_at};

use crate::code::Code;
use crate::frame::Frame;
use std::alloc::{AllocError, Global};

/// The frames at all offsets.
pub fn spread(
    alloc: Global,
    code: &Code<'_>,
    before: &[Option<usize>],
    frames: Vec<Option<Frame>>,
) -> Result<Vec<Option<Frame>>, AllocError>
    requires table { flow.IsTable code.now.method.now.lines code.now.starts.items }
    requires parts { AreBlocks code.now.method.now before.now }
    requires size { length frames.items ≡ length code.now.starts.items }
    requires formed { flow.AreFormed code.now.method.now.locals code.now.method.now.stack
        frames.items }
    ensures { IfOk result (λ spread. flow.SpreadTo (program_over code.now.methods.now)
        code.now.method.now before.now (length code.now.starts.items) frames.items
        spread.items) }
{
    let mut spread = frames;
    for at in 0..code.starts.len() {
        spread_one(alloc, code, before, &mut spread, at)?;
    }
    Ok(spread)
}

// The frame at the next offset.
fn spread_one(
    alloc: Global,
    code: &Code<'_>,
    before: &[Option<usize>],
    spread: &mut Vec<Option<Frame>>,
    at: usize,
) -> Result<(), AllocError>
    requires table { flow.IsTable code.now.method.now.lines code.now.starts.items }
    requires parts { AreBlocks code.now.method.now before.now }
    requires within { at < length spread.old.items }
    requires sized { (n : ℕ) (f : Frame) → slice_index_or spread.old.items n None ≡ Some f
        → IsSized code.now.method.now.locals code.now.method.now.stack f }
    ensures { IfOk result (λ _. (frames : List (Option Frame))
        → flow.SpreadTo (program_over code.now.methods.now) code.now.method.now before.now at
        frames spread.old.items
        → flow.SpreadTo (program_over code.now.methods.now) code.now.method.now before.now (suc at)
        frames spread.new.items) }
{
    let Some(x) = before_of(before, at) else {
        return Ok(());
    };
    let frame = frame_behind(alloc, code, spread.as_slice(), x)?;
    put(spread, at, frame);
    Ok(())
}

fn put(spread: &mut Vec<Option<Frame>>, at: usize, frame: Option<Frame>)
    requires { at < length spread.old.items }
    ensures { spread.new.items ≡ slice_set spread.old.items at frame }
{
    spread[at] = frame;
}

#[inline(always)]
fn before_of(before: &[Option<usize>], at: usize) -> Option<usize>
    ensures { result ≡ before_in before.now at }
{
    match before.get(at) {
        Some(x) => *x,
        None => None,
    }
}

// The frame behind the instruction at an offset, where it has a frame.
fn frame_behind(
    alloc: Global,
    code: &Code<'_>,
    frames: &[Option<Frame>],
    at: usize,
) -> Result<Option<Frame>, AllocError>
    requires table { flow.IsTable code.now.method.now.lines code.now.starts.items }
    requires sized { (n : ℕ) (f : Frame) → slice_index_or frames.now n None ≡ Some f
        → IsSized code.now.method.now.locals code.now.method.now.stack f }
    ensures behind { IfOk result (λ o. flow.IsBehind (program_over code.now.methods.now)
        code.now.method.now at (frame_at frames.now at) o) }
    ensures sized { IfOk result (λ o. IfSome o (IsSized code.now.method.now.locals
        code.now.method.now.stack)) }
{
    let Some(line) = code.line_at(at) else {
        return Ok(None);
    };
    match frames.get(at) {
        Some(Some(frame)) => code.behind(alloc, &line.instruction, frame),
        _ => Ok(None),
    }
}
