//! One pass over the instructions of a method (JVM Specification, Java SE 7 edition, 4.10.1).
ghost use Rattle.std.specs.Prelude.{◌≡◌, ◌↔◌, ℕ, [], None, Some, IfOk, IsTrue, MatchOption, All, option_map, if◌then◌else◌};
ghost use Rattle.jvm_definition.specs.Program.{LaidFrom};
ghost use Rattle.jvm_definition.specs.Typing.{TypeFrame};
ghost use Rattle.jvm_type_inference.specs.Actions.{program_over};
ghost use Rattle.jvm_type_inference.specs.Frames.{type_frame, frame_at};
ghost use Rattle.frame_maps.specs.Framed.{Framed, HasLine};
ghost use Rattle.frame_maps.specs.Walk.{Comes, FlowsBelow, ListedAbove, IsWay};
ghost use Rattle.frame_maps.specs.declared.way.Way.TheVariants.{GoesOn, Stops};
ghost use Rattle.jvm_definition.specs.Program as program;

use crate::way::Way;
use jvm_definition::{Instruction, LinkedLine};
use jvm_type_inference::{
    Code, Frame, KindList, SharedKinds, falls_through, is_frame_below, targets_of,
};
use std::alloc::{AllocError, Global};

/// Whether a method is typed by the frames that are listed for some of its offsets, each of which has an instruction.
pub fn is_framed(
    alloc: Global,
    code: &Code<'_>,
    listed: &[Option<Frame>],
) -> Result<bool, AllocError>
    requires laid { LaidFrom 0 code.now.method.now.lines }
    requires lines { (at : ℕ) (f : TypeFrame) → frame_at listed.now at ≡ Some f
        → HasLine code.now.method.now at }
    ensures { IfOk result (λ good. IsTrue good
        ↔ Framed (program_over code.now.methods.now) code.now.method.now (frame_at listed.now)) }
{
    if code.method.parameters.as_slice().len() > usize::from(code.method.locals) {
        return Ok(false);
    }
    let mut flowing = Some(entry_frame(alloc, code)?);
    let mut rest = code.method.lines.as_slice();
    while let Some((line, others)) = rest.split_first() {
        match step(alloc, code, listed, line, &flowing)? {
            Way::Fails => return Ok(false),
            Way::Stops => flowing = None,
            Way::GoesOn(behind) => flowing = Some(behind),
        }
        rest = others;
    }
    Ok(flowing.is_none())
}

// The frame with which a method is entered.
fn entry_frame(alloc: Global, code: &Code<'_>) -> Result<Frame, AllocError>
    ensures locals { IfOk result (λ f. f.locals ≡ code.now.method.now.parameters) }
    ensures stack { IfOk result (λ f. f.stack ≡ []) }
{
    let locals = SharedKinds::from_slice(alloc, code.method.parameters.as_slice())?;
    Ok(Frame {
        locals,
        stack: KindList::new(),
    })
}

// One instruction, to which a frame flows or none.
fn step(
    alloc: Global,
    code: &Code<'_>,
    listed: &[Option<Frame>],
    line: &LinkedLine,
    flowing: &Option<Frame>,
) -> Result<Way, AllocError>
    ensures { IfOk result (IsWay (program_over code.now.methods.now) code.now.method.now
        (frame_at listed.now) (option_map type_frame flowing.now) line.now) }
{
    let Some(frame) = arriving(listed, line.at as usize, flowing) else {
        return Ok(Way::Fails);
    };
    let Some(behind) = code.behind(alloc, &line.instruction, frame)? else {
        return Ok(Way::Fails);
    };
    let targets = targets_of(alloc, &line.instruction)?;
    if !are_listed_above(listed, &behind, &targets) {
        return Ok(Way::Fails);
    }
    Ok(way_on(&line.instruction, behind))
}

// The frame with which an instruction is entered: the one that is listed for it, or the one that flows to it.
fn arriving<'a>(
    listed: &'a [Option<Frame>],
    at: usize,
    flowing: &'a Option<Frame>,
) -> Option<&'a Frame>
    ensures { MatchOption result
        ((f : TypeFrame)
        → Comes (frame_at listed.now at) (option_map type_frame flowing.now) f → ⊥)
        (λ f. Comes (frame_at listed.now at) (option_map type_frame flowing.now)
        (type_frame f.now)) }
{
    match listed_at(listed, at) {
        Some(frame) => {
            if flows_below(flowing, frame) && frame.stack.are_typed() {
                Some(frame)
            } else {
                None
            }
        }
        None => flowing_frame(flowing),
    }
}

fn listed_at(listed: &[Option<Frame>], at: usize) -> Option<&Frame>
    ensures { option_map (λ f. type_frame f.now) result ≡ frame_at listed.now at }
{
    listed.get(at)?.as_ref()
}

// Whether what flows is below a frame, if anything flows.
fn flows_below(flowing: &Option<Frame>, frame: &Frame) -> bool
    ensures { IsTrue result
        ↔ FlowsBelow (option_map type_frame flowing.now) (type_frame frame.now) }
{
    match flowing {
        None => true,
        Some(other) => is_frame_below(other, frame),
    }
}

// The frame that flows, if each operand has a type.
fn flowing_frame(flowing: &Option<Frame>) -> Option<&Frame>
    ensures { MatchOption result
        ((f : TypeFrame) → Comes None (option_map type_frame flowing.now) f → ⊥)
        (λ f. Comes None (option_map type_frame flowing.now) (type_frame f.now)) }
{
    match flowing {
        Some(frame) if frame.stack.are_typed() => Some(frame),
        _ => None,
    }
}

fn is_listed_above(listed: &[Option<Frame>], behind: &Frame, to: usize) -> bool
    ensures { IsTrue result ↔ ListedAbove (frame_at listed.now) (type_frame behind.now) to }
{
    match listed_at(listed, to) {
        Some(frame) => is_frame_below(behind, frame),
        None => false,
    }
}

// Whether a frame above one is listed for each of some offsets.
fn are_listed_above(listed: &[Option<Frame>], behind: &Frame, targets: &[u32]) -> bool
    ensures { IsTrue result
        ↔ All (ListedAbove (frame_at listed.now) (type_frame behind.now)) targets.now }
{
    for target in targets {
        if !is_listed_above(listed, behind, *target as usize) {
            return false;
        }
    }
    true
}

// Where the frame behind an instruction goes.
fn way_on(instruction: &Instruction, behind: Frame) -> Way
    ensures { result
        ≡ (if program.falls_through instruction.now then GoesOn behind else Stops) }
{
    if falls_through(instruction) {
        Way::GoesOn(behind)
    } else {
        Way::Stops
    }
}
