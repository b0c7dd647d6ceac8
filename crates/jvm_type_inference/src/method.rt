//! Whether a method is typed (JVM Specification, 4.10).
ghost use Rattle.std.specs.Prelude.{◌≡◌, ◌<◌, ◌≤◌, ◌^◌, [], Some, IfOk, length, replicate, slice_get, slice_set};
ghost use Rattle.jvm_type_inference.specs.Actions.{program_over};
ghost use Rattle.jvm_type_inference.specs.Blocks.{AreBlocks};
ghost use Rattle.jvm_type_inference.specs.Flow.{IsTable, IsAnalysis};
ghost use Rattle.jvm_type_inference.specs.Frames.{entry_of};
ghost use Rattle.jvm_type_inference.specs.Inferred.{IsInferred, IsInferredOf};
ghost use Rattle.jvm_type_inference.specs.Verdict.{IsVerdict, IsVerdictOf};

use crate::blocks::blocks_of;
use crate::code::{Code, starts_of};
use crate::flow::Flow;
use crate::frame::Frame;
use crate::inferred::Inferred;
use crate::kind_list::KindList;
use crate::shared_kinds::SharedKinds;
use crate::spreading::spread;
use jvm_definition::{LinkedMethod, Sequence};
use std::alloc::{AllocError, Global};

/// The least offset up to which a method has no typing; none where it has one.
pub fn check_method(
    alloc: Global,
    methods: &[LinkedMethod],
    number: usize,
) -> Result<Option<u32>, AllocError>
    requires { number < length methods.now }
    ensures { IfOk result (IsVerdictOf (program_over methods.now) number) }
{
    let code = code_of(alloc, methods, number)?;
    let before = blocks_of(alloc, &code)?;
    verdict_by_blocks(alloc, &code, &before)
}

/// The frames of a method's least typing, or the least offset up to which it has none.
pub fn infer(alloc: Global, methods: &[LinkedMethod], number: usize) -> Result<Inferred, AllocError>
    requires { number < length methods.now }
    ensures { IfOk result (IsInferredOf (program_over methods.now) number) }
{
    let code = code_of(alloc, methods, number)?;
    let before = blocks_of(alloc, &code)?;
    typing_by_blocks(alloc, &code, &before)
}

fn verdict_by_blocks(
    alloc: Global,
    code: &Code<'_>,
    before: &[Option<usize>],
) -> Result<Option<u32>, AllocError>
    requires table { IsTable code.now.method.now.lines code.now.starts.items }
    requires parts { AreBlocks code.now.method.now before.now }
    requires fits { length code.now.starts.items ≤ 2 ^ 32 }
    ensures { IfOk result (IsVerdict (program_over code.now.methods.now)
        code.now.method.now) }
{
    let analysis = analyzed(alloc, code, before)?;
    match analysis {
        Inferred::Typed(_frames) => Ok(None),
        Inferred::Fails(at) => Ok(Some(at)),
    }
}

fn typing_by_blocks(
    alloc: Global,
    code: &Code<'_>,
    before: &[Option<usize>],
) -> Result<Inferred, AllocError>
    requires table { IsTable code.now.method.now.lines code.now.starts.items }
    requires parts { AreBlocks code.now.method.now before.now }
    requires fits { length code.now.starts.items ≤ 2 ^ 32 }
    ensures { IfOk result (IsInferred (program_over code.now.methods.now)
        code.now.method.now) }
{
    let analysis = analyzed(alloc, code, before)?;
    match analysis {
        Inferred::Typed(frames) => {
            let frames = spread(alloc, code, before, frames.into_vec())?;
            Ok(Inferred::Typed(Sequence::new(frames)))
        }
        Inferred::Fails(at) => Ok(Inferred::Fails(at)),
    }
}

fn code_of<'a>(
    alloc: Global,
    methods: &'a [LinkedMethod],
    number: usize,
) -> Result<Code<'a>, AllocError>
    requires { number < length methods.now }
    ensures methods { IfOk result (λ code. code.methods.now ≡ methods.now) }
    ensures method { IfOk result (λ code. slice_get methods.now number ≡ Some code.method.now) }
    ensures table { IfOk result (λ code. IsTable code.method.now.lines code.starts.items) }
    ensures fits { IfOk result (λ code. length code.starts.items ≤ 2 ^ 32) }
{
    let method = &methods[number];
    let starts = starts_of(alloc, method.lines.as_slice())?;
    Ok(Code {
        methods,
        method,
        starts,
    })
}

// The frames where the blocks of a method begin, in its least typing; or the least offset up to which it has none.
fn analyzed(
    alloc: Global,
    code: &Code<'_>,
    before: &[Option<usize>],
) -> Result<Inferred, AllocError>
    requires table { IsTable code.now.method.now.lines code.now.starts.items }
    requires parts { AreBlocks code.now.method.now before.now }
    requires fits { length code.now.starts.items ≤ 2 ^ 32 }
    ensures { IfOk result (IsAnalysis (program_over code.now.methods.now)
        code.now.method.now before.now (length code.now.starts.items)) }
{
    let method = code.method;
    if method.parameters.as_slice().len() > usize::from(method.locals) {
        return Ok(Inferred::Fails(0));
    }
    if !code.has_line(0) {
        return Ok(Inferred::Fails(0));
    }
    let mut flow = entered(alloc, code)?;
    let fault = flow.admit_all(alloc, code, before)?;
    match fault {
        None => Ok(Inferred::Typed(Sequence::new(flow.frames))),
        Some(at) => Ok(Inferred::Fails(at)),
    }
}

// The frame of the method's start, and no other yet.
fn entered(alloc: Global, code: &Code<'_>) -> Result<Flow, AllocError>
    requires { 0 < length code.now.starts.items }
    ensures frames { IfOk result (λ f. f.frames.items
        ≡ slice_set (replicate (length code.now.starts.items) None) 0
        (Some (entry_of code.now.method.now))) }
    ensures done { IfOk result (λ f. f.work.items ≡ []) }
{
    let mut frames = no_frames(alloc, code.starts.len())?;
    let locals = SharedKinds::from_slice(alloc, code.method.parameters.as_slice())?;
    frames[0] = Some(Frame {
        locals,
        stack: KindList::new(),
    });
    Ok(Flow {
        frames,
        work: Vec::new(alloc),
    })
}

fn no_frames(alloc: Global, count: usize) -> Result<Vec<Option<Frame>>, AllocError>
    ensures { IfOk result (λ v. v.items ≡ replicate count None) }
{
    let mut frames = Vec::with_capacity(alloc, count)?;
    while frames.len() < count {
        frames.push_reserved(None);
    }
    Ok(frames)
}
