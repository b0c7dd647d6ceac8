//! A table from its bytes (JVM Specification, Java SE 7 edition, 4.7.4).
ghost use Rattle.std.specs.Prelude.{◌≡◌, ◌≤◌, ◌-◌, IfOk, length};
ghost use Rattle.std.specs.Int.{w16};
ghost use Rattle.class_format.specs.Gives.{Gives};
ghost use Rattle.class_definition.specs.Format.{counted, repeated, whole};
ghost use Rattle.stackmap_table.specs.Tables as format;
ghost use Rattle.stackmap_table.specs.declared.place.Place.TheVariants.{Local, Operand};

use crate::place::Place;
use crate::table_frame::TableFrame;
use crate::table_type::TableType;
use crate::types::{missed_tag, type_of, types_of};
use class_format::{Failure, byte_of, half_of, missed};
use constant_pool::Entry;
use jvm_definition::Sequence;
use std::alloc::Global;

/// The one kind of what is wrong with a table.
pub const NO_TABLE: u32 = 1;

/// The frames of all the bytes; Missed, exactly if they are no table.
pub fn table_of(alloc: Global, pool: &[Entry], bytes: &[u8]) -> Result<Vec<TableFrame>, Failure>
    ensures read { Gives (λ v. v.items) result
        (whole (format.frame_table pool.now) format.bad_table bytes.now) }
    ensures few { IfOk result (λ v. length v.items ≤ 65535) }
{
    let (count, rest) = half_of(NO_TABLE, bytes)?;
    let (frames, rest) = frames_of(alloc, pool, count, rest)?;
    if !rest.is_empty() {
        return Err(missed(NO_TABLE, rest));
    }
    Ok(frames)
}

fn frames_of<'a>(
    alloc: Global,
    pool: &[Entry],
    count: u16,
    bytes: &'a [u8],
) -> Result<(Vec<TableFrame>, &'a [u8]), Failure>
    ensures read { Gives (λ x. (x.0.items, x.1.now)) result
        ((repeated (format.frame pool.now) count).read bytes.now) }
    ensures count { IfOk result (λ x. length x.0.items ≡ count) }
{
    let mut frames = Vec::new(alloc);
    let mut rest = bytes;
    let mut to_come = count;
    while to_come > 0 {
        to_come -= 1;
        let (frame, others) = frame_of(alloc, pool, rest)?;
        frames.push(frame)?;
        rest = others;
    }
    Ok((frames, rest))
}

#[tactic(auto, unfolding(crate::specs::Tables::frame))]
fn frame_of<'a>(
    alloc: Global,
    pool: &[Entry],
    bytes: &'a [u8],
) -> Result<(TableFrame, &'a [u8]), Failure>
    ensures { Gives (λ x. (x.0, x.1.now)) result ((format.frame pool.now).read bytes.now) }
{
    let (tag, rest) = byte_of(NO_TABLE, bytes)?;
    if tag < 64 {
        Ok((TableFrame::Same(tag), rest))
    } else if tag < 128 {
        same_with_operand_of(pool, tag - 64, rest)
    } else if tag < 247 {
        Err(missed_tag(rest))
    } else {
        extended_of(alloc, pool, tag, rest)
    }
}

// What follows one of the tags from 247 on.
fn extended_of<'a>(
    alloc: Global,
    pool: &[Entry],
    tag: u8,
    bytes: &'a [u8],
) -> Result<(TableFrame, &'a [u8]), Failure>
    requires { 247 ≤ tag }
    ensures { Gives (λ x. (x.0, x.1.now)) result ((format.form pool.now tag).read bytes.now) }
{
    if tag == 247 {
        same_with_operand_extended_of(pool, bytes)
    } else if tag < 251 {
        chop_of(251 - tag, bytes)
    } else if tag == 251 {
        same_extended_of(bytes)
    } else if tag < 255 {
        append_of(alloc, pool, u16::from(tag - 251), bytes)
    } else {
        full_of(alloc, pool, bytes)
    }
}

fn same_with_operand_of<'a>(
    pool: &[Entry],
    delta: u8,
    bytes: &'a [u8],
) -> Result<(TableFrame, &'a [u8]), Failure>
    ensures { Gives (λ x. (x.0, x.1.now)) result
        ((format.same_with_operand pool.now delta).read bytes.now) }
{
    let (operand, rest) = type_of(pool, Place::Operand, bytes)?;
    Ok((TableFrame::SameWithOperand(delta, operand), rest))
}

fn same_with_operand_extended_of<'a>(
    pool: &[Entry],
    bytes: &'a [u8],
) -> Result<(TableFrame, &'a [u8]), Failure>
    ensures { Gives (λ x. (x.0, x.1.now)) result
        ((format.same_with_operand_extended pool.now).read bytes.now) }
{
    let (delta, rest) = half_of(NO_TABLE, bytes)?;
    let (operand, rest) = type_of(pool, Place::Operand, rest)?;
    Ok((TableFrame::SameWithOperandExtended(delta, operand), rest))
}

fn chop_of(dropped: u8, bytes: &[u8]) -> Result<(TableFrame, &[u8]), Failure>
    ensures { Gives (λ x. (x.0, x.1.now)) result ((format.chop dropped).read bytes.now) }
{
    let (delta, rest) = half_of(NO_TABLE, bytes)?;
    Ok((TableFrame::Chop(delta, dropped), rest))
}

fn same_extended_of(bytes: &[u8]) -> Result<(TableFrame, &[u8]), Failure>
    ensures { Gives (λ x. (x.0, x.1.now)) result (format.same_extended.read bytes.now) }
{
    let (delta, rest) = half_of(NO_TABLE, bytes)?;
    Ok((TableFrame::SameExtended(delta), rest))
}

fn append_of<'a>(
    alloc: Global,
    pool: &[Entry],
    count: u16,
    bytes: &'a [u8],
) -> Result<(TableFrame, &'a [u8]), Failure>
    ensures { Gives (λ x. (x.0, x.1.now)) result ((format.append pool.now count).read bytes.now) }
{
    let (delta, rest) = half_of(NO_TABLE, bytes)?;
    let (locals, rest) = types_of(alloc, pool, Place::Local, count, rest)?;
    Ok((TableFrame::Append(delta, Sequence::new(locals)), rest))
}

fn full_of<'a>(
    alloc: Global,
    pool: &[Entry],
    bytes: &'a [u8],
) -> Result<(TableFrame, &'a [u8]), Failure>
    ensures { Gives (λ x. (x.0, x.1.now)) result ((format.full pool.now).read bytes.now) }
{
    let (delta, rest) = half_of(NO_TABLE, bytes)?;
    let (locals, rest) = counted_types_of(alloc, pool, Place::Local, rest)?;
    let (operands, rest) = counted_types_of(alloc, pool, Place::Operand, rest)?;
    let frame = TableFrame::Full(delta, Sequence::new(locals), Sequence::new(operands));
    Ok((frame, rest))
}

fn counted_types_of<'a>(
    alloc: Global,
    pool: &[Entry],
    place: Place,
    bytes: &'a [u8],
) -> Result<(Vec<TableType>, &'a [u8]), Failure>
    ensures { Gives (λ x. (x.0.items, x.1.now)) result
        ((counted 1 w16 (format.type_at pool.now place)).read bytes.now) }
{
    let (count, rest) = half_of(NO_TABLE, bytes)?;
    types_of(alloc, pool, place, count, rest)
}
