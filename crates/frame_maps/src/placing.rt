//! Frames that are listed with their offsets, at these offsets.
ghost use Rattle.std.specs.Prelude.{◌≡◌, ◌≤◌, ◌^◌, ℕ, IfOk, MatchOption, None, Some, length, replicate};
ghost use Rattle.jvm_definition.specs.Program.{Program};
ghost use Rattle.jvm_definition.specs.Typing.{TypeFrame};
ghost use Rattle.jvm_type_inference.specs.Flow.{IsTable};
ghost use Rattle.jvm_type_inference.specs.Frames.{frame_at};
ghost use Rattle.type_verifier.specs.Typings.{listed_frames};
ghost use Rattle.frame_maps.specs.Framed.{Framed};
ghost use Rattle.frame_maps.specs.Placed.{ArePlaced};

use jvm_definition::Sequence;
use jvm_type_inference::{Code, Frame};
use std::alloc::{AllocError, Global};

/// The frames at their offsets; None where one of them is at no instruction, so that the method is not typed by them.
pub fn placed(
    alloc: Global,
    code: &Code<'_>,
    listed: Vec<(u32, Frame)>,
) -> Result<Option<Vec<Option<Frame>>>, AllocError>
    requires { IsTable code.now.method.now.lines code.now.starts.items }
    ensures { IfOk result (λ o. MatchOption o
        ((program : Program) → Framed program code.now.method.now (listed_frames listed.items) → ⊥)
        (λ v. ArePlaced code.now.method.now (listed_frames listed.items) (frame_at v.items))) }
{
    let mut frames = no_frames(alloc, code.starts.len())?;
    let mut rest = listed;
    while let Some((at, frame)) = rest.pop() {
        let at = at as usize;
        if !code.has_line(at) {
            return Ok(None);
        }
        frames[at] = Some(frame);
    }
    Ok(Some(frames))
}

fn no_frames(alloc: Global, count: usize) -> Result<Vec<Option<Frame>>, AllocError>
    ensures { IfOk result (λ v. v.items ≡ replicate count None) }
{
    let mut frames = Vec::new(alloc);
    while frames.len() < count {
        frames.push(None)?;
    }
    Ok(frames)
}
