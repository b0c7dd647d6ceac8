//! A frame flows to an instruction (JVM Specification, 4.10.2.2).
ghost use Rattle.std.specs.Prelude.{◌≡◌, IfOk, false, option_map, option_copied, IsTrue, ◌↔◌};
ghost use Rattle.jvm_definition.specs.Typing.{Below};
ghost use Rattle.jvm_type_inference.specs.Joins as joins;
ghost use Rattle.jvm_type_inference.specs.Frames.{type_frame, IsMeeting};
ghost use Rattle.jvm_type_inference.specs.declared.meeting.Meeting.{Meeting};

use crate::frame::Frame;
use crate::kind_list::KindList;
use crate::kinds::{are_locals_below, is_top, join};
use crate::meeting::Meeting;
use crate::shared_kinds::SharedKinds;
use jvm_definition::Kind;
use std::alloc::{AllocError, Global};

/// What comes of a frame that flows to an instruction with a frame or none. It stays the frame of one that had none.
#[inline(always)]
pub fn meet(alloc: Global, old: &Option<Frame>, frame: Frame) -> Result<Meeting, AllocError>
    ensures { IfOk result (IsMeeting old.now frame) }
{
    match old {
        None => Ok(first_frame(frame)),
        Some(old) => {
            if is_frame_below(&frame, old) {
                Ok(Meeting::Unchanged)
            } else {
                joined_frame(alloc, old, &frame)
            }
        }
    }
}

#[inline(always)]
fn first_frame(frame: Frame) -> Meeting
    ensures { IsMeeting None frame result }
{
    if frame.stack.are_typed() {
        Meeting::Changed(frame)
    } else {
        Meeting::Refused
    }
}

/// Whether a frame is below another (JVM Specification, 4.10.1.2).
pub fn is_frame_below(frame: &Frame, other: &Frame) -> bool
    ensures { result
        ≡ joins.frame_below frame.now.locals frame.now.stack other.now.locals other.now.stack }
{
    frame.stack.is_below(&other.stack)
        && are_locals_below(frame.locals.as_slice(), other.locals.as_slice())
}

fn joined_frame(alloc: Global, old: &Frame, frame: &Frame) -> Result<Meeting, AllocError>
    requires { joins.frame_below frame.now.locals frame.now.stack old.now.locals old.now.stack
        ≡ false }
    ensures { IfOk result (IsMeeting (Some old.now) frame.now) }
{
    let Some(stack) = joined_stack(alloc, &old.stack, &frame.stack)? else {
        return Ok(Meeting::Refused);
    };
    let locals = joined_locals(alloc, old.locals.as_slice(), frame.locals.as_slice())?;
    Ok(Meeting::Changed(Frame { locals, stack }))
}

// The operands of a frame that is there, joined with those of one that flows to it.
#[tactic(auto, using(crate::proofs::StillLaws::joined_still))]
fn joined_stack(
    alloc: Global,
    stack: &KindList,
    others: &KindList,
) -> Result<Option<KindList>, AllocError>
    ensures { IfOk result (λ o. o ≡ joins.joined_stacks stack.now others.now) }
{
    if stack.are_typed() && others.is_below(stack) {
        return Ok(Some(stack.copied()?));
    }
    let kinds = stack.to_vec(alloc)?;
    let others = others.to_vec(alloc)?;
    match joined_kinds(alloc, kinds.as_slice(), others.as_slice())? {
        Some(joined) => Ok(Some(KindList::from_vec(alloc, joined)?)),
        None => Ok(None),
    }
}

fn joined_kinds(
    alloc: Global,
    stack: &[Kind],
    others: &[Kind],
) -> Result<Option<Vec<Kind>>, AllocError>
    ensures { IfOk result (λ o. option_map (λ v. v.items) o
        ≡ joins.joined_stacks stack.now others.now) }
{
    let mut kinds = Vec::new(alloc);
    let mut rest = stack;
    let mut beside = others;
    while let Some((kind, behind)) = rest.split_first() {
        let Some((other, more)) = beside.split_first() else {
            return Ok(None);
        };
        let above = join(*kind, *other);
        if is_top(above) {
            return Ok(None);
        }
        kinds.push(above)?;
        rest = behind;
        beside = more;
    }
    if beside.is_empty() {
        Ok(Some(kinds))
    } else {
        Ok(None)
    }
}

fn joined_locals(alloc: Global, locals: &[Kind], others: &[Kind]) -> Result<SharedKinds, AllocError>
    ensures { IfOk result (λ s. s ≡ joins.joined_locals locals.now others.now) }
{
    let mut kinds = Vec::new(alloc);
    let mut rest = locals;
    let mut beside = others;
    while let Some((kind, behind)) = rest.split_first() {
        let Some((other, more)) = beside.split_first() else {
            return SharedKinds::new(alloc, kinds);
        };
        kinds.push(join(*kind, *other))?;
        rest = behind;
        beside = more;
    }
    SharedKinds::new(alloc, kinds)
}
