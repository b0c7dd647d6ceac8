//! The frames for which those of a table are (JVM Specification, Java SE 7 edition, 4.7.4).
ghost use Rattle.std.specs.Prelude.{◌≡◌, ◌+◌, ◌-◌, ◌<◌, ◌≤◌, ◌^◌, ◌++◌, None, Some, IfOk, OnOk, IfSome, IfNone, if◌then◌else◌, nat_le, length, map, take, option_map};
ghost use Rattle.stackmap_table.specs.Last.{last_locals};
ghost use Rattle.stackmap_table.specs.Meaning as meaning;

use crate::reading::table_of;
use crate::table_frame::TableFrame;
use crate::table_type::TableType;
use crate::types::kind_of;
use class_format::Failure;
use constant_pool::Entry;
use jvm_definition::{Kind, LinkedMethod};
use jvm_type_inference::{Frame, KindList, SharedKinds, has_room};
use std::alloc::{AllocError, Global};

/// The frames that bytes list for a method of a class with a pool, each with its offset, which rise; None exactly if the
/// bytes are no table of the method. No bytes list no frame.
pub fn listed_frames(
    alloc: Global,
    pool: &[Entry],
    method: &LinkedMethod,
    bytes: &[u8],
) -> Result<Option<Vec<(u32, Frame)>>, AllocError>
    ensures { IfOk result (λ o. option_map (λ v. v.items) o
        ≡ meaning.frames_of pool.now method.now bytes.now) }
{
    if bytes.is_empty() {
        return Ok(Some(Vec::new(alloc)));
    }
    match table_of(alloc, pool, bytes) {
        Ok(frames) => frames_from(alloc, pool, method, &frames),
        Err(Failure::Missed(_)) => Ok(None),
        Err(Failure::NoMemory) => Err(AllocError),
    }
}

fn frames_from(
    alloc: Global,
    pool: &[Entry],
    method: &LinkedMethod,
    frames: &[TableFrame],
) -> Result<Option<Vec<(u32, Frame)>>, AllocError>
    requires { length frames.now ≤ 65535 }
    ensures { IfOk result (λ o. option_map (λ v. v.items) o
        ≡ meaning.frames_after pool.now method.now.locals method.now.stack None
        method.now.parameters frames.now) }
{
    let mut listed = Vec::new(alloc);
    let mut last = None;
    let mut rest = frames;
    while let Some((frame, others)) = rest.split_first() {
        let before = locals_before(alloc, method, &listed)?;
        let Some(locals) = locals_of(alloc, pool, &before, frame)? else {
            return Ok(None);
        };
        let stack = operands_of(alloc, pool, frame)?;
        if !is_within(method, locals.as_slice(), &stack) {
            return Ok(None);
        }
        let at = offset_of(last, frame);
        let stack = KindList::from_slice(alloc, &stack)?;
        listed.push((at, Frame { locals, stack }))?;
        last = Some(at);
        rest = others;
    }
    Ok(Some(listed))
}

// The local variables of the last frame, or the parameters.
fn locals_before(
    alloc: Global,
    method: &LinkedMethod,
    listed: &[(u32, Frame)],
) -> Result<SharedKinds, AllocError>
    ensures { IfOk result (λ s. s ≡ last_locals method.now.parameters listed.now) }
{
    match listed.split_last() {
        None => SharedKinds::from_slice(alloc, method.parameters.as_slice()),
        Some((last, _others)) => last.1.locals.shared(),
    }
}

// The local variables of a frame, behind those of the one before it; none where it drops more.
fn locals_of(
    alloc: Global,
    pool: &[Entry],
    before: &SharedKinds,
    frame: &TableFrame,
) -> Result<Option<SharedKinds>, AllocError>
    ensures { IfOk result (λ o. o ≡ meaning.locals_of pool.now before.now frame.now) }
{
    match frame {
        TableFrame::Chop(_, dropped) => chopped(alloc, before.as_slice(), usize::from(*dropped)),
        TableFrame::Append(_, types) => {
            let mut locals = Vec::from_slice(alloc, before.as_slice())?;
            append_kinds(&mut locals, pool, types.as_slice())?;
            Ok(Some(SharedKinds::new(alloc, locals)?))
        }
        TableFrame::Full(_, types, _) => {
            let mut locals = Vec::new(alloc);
            append_kinds(&mut locals, pool, types.as_slice())?;
            Ok(Some(SharedKinds::new(alloc, locals)?))
        }
        _ => Ok(Some(before.shared()?)),
    }
}

fn chopped(
    alloc: Global,
    before: &[Kind],
    dropped: usize,
) -> Result<Option<SharedKinds>, AllocError>
    ensures { IfOk result (λ o. o
        ≡ (if nat_le dropped (length before.now)
        then Some (take (length before.now - dropped) before.now) else None)) }
{
    if before.len() < dropped {
        return Ok(None);
    }
    let kept = &before[..before.len() - dropped];
    Ok(Some(SharedKinds::from_slice(alloc, kept)?))
}

// Appends the types for which those of a table stand.
fn append_kinds(
    kinds: &mut Vec<Kind>,
    pool: &[Entry],
    types: &[TableType],
) -> Result<(), AllocError>
    ensures { OnOk result (kinds.new.items
        ≡ kinds.old.items ++ map (meaning.table_kind pool.now) types.now) }
{
    for item in types {
        kinds.push(kind_of(pool, *item))?;
    }
    Ok(())
}

// The operands of a frame, top first.
fn operands_of(alloc: Global, pool: &[Entry], frame: &TableFrame) -> Result<Vec<Kind>, AllocError>
    ensures { IfOk result (λ v. v.items ≡ meaning.frame_operands pool.now frame.now) }
{
    let mut operands = Vec::new(alloc);
    match frame {
        TableFrame::SameWithOperand(_, operand) | TableFrame::SameWithOperandExtended(_, operand) =>
            {
                operands.push(kind_of(pool, *operand))?;
            }
        TableFrame::Full(_, _, types) => {
            append_kinds(&mut operands, pool, types.as_slice())?;
            operands.reverse();
        }
        _ => {}
    }
    Ok(operands)
}

fn is_within(method: &LinkedMethod, locals: &[Kind], stack: &[Kind]) -> bool
    ensures { result ≡ meaning.is_frame_within method.now.locals method.now.stack locals.now stack.now }
{
    locals.len() <= usize::from(method.locals) && has_room(stack, method.stack)
}

fn delta_of(frame: &TableFrame) -> u16
    ensures { result ≡ meaning.delta_of frame.now }
{
    match frame {
        TableFrame::Same(delta) | TableFrame::SameWithOperand(delta, _) => u16::from(*delta),
        TableFrame::SameWithOperandExtended(delta, _)
        | TableFrame::Chop(delta, _)
        | TableFrame::SameExtended(delta)
        | TableFrame::Append(delta, _)
        | TableFrame::Full(delta, _, _) => *delta,
    }
}

// The offset of a frame, behind that of the one before it.
fn offset_of(last: Option<u32>, frame: &TableFrame) -> u32
    requires { IfSome last (λ at. at + 65536 < 2 ^ 32) }
    ensures offset { result ≡ meaning.frame_offset last frame.now }
    ensures near { IfNone last (result < 65536) }
    ensures nearer { IfSome last (λ at. result ≤ at + 65536) }
{
    let delta = u32::from(delta_of(frame));
    match last {
        None => delta,
        Some(at) => at + delta + 1,
    }
}
