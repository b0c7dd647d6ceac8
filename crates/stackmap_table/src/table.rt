//! The table of the frames that are listed for a method (JVM Specification, Java SE 7 edition, 4.7.4).
ghost use Rattle.std.specs.Prelude.{◌≡◌, ◌+◌, ◌<◌, IfOk, OnOk, IfSome, IfNone};
ghost use Rattle.stackmap_table.specs.Last.{start_of};
ghost use Rattle.stackmap_table.specs.Shortest.{AreReferences, AreTabled, IsTabled, IsTableOf, trimmed_locals};
ghost use Rattle.stackmap_table.specs.Written.{AppendsNext, AppendsShortest};

use crate::reference_slots::ReferenceSlots;
use crate::shortest::{is_same, shortest_frame};
use crate::writing::{append_frame, append_half};
use constant_pool::Entry;
use jvm_definition::Kind;
use jvm_type_inference::Frame;
use std::alloc::{AllocError, Global};

/// The table of the frames that are listed for a method with these parameters, each with its offset, which rise: each frame in the
/// shortest form that gives it, without the local variables at its end of which nothing is known. It is empty where no frame is
/// listed. The slots are those of the pool.
pub fn table_of_frames(
    alloc: Global,
    pool: &[Entry],
    slots: ReferenceSlots,
    parameters: &[Kind],
    listed: &[(u32, Frame)],
) -> Result<Vec<u8>, AllocError>
    requires references { AreReferences pool.now slots }
    requires tabled { AreTabled 0 listed.now }
    ensures { IfOk result (λ bytes. IsTableOf pool.now parameters.now listed.now bytes.items) }
{
    let mut bytes = Vec::new(alloc);
    if listed.is_empty() {
        return Ok(bytes);
    }
    append_half(&mut bytes, listed.len() as u16)?;
    append_frames(alloc, &mut bytes, pool, slots, parameters, listed)?;
    Ok(bytes)
}

fn append_frames(
    alloc: Global,
    bytes: &mut Vec<u8>,
    pool: &[Entry],
    slots: ReferenceSlots,
    parameters: &[Kind],
    listed: &[(u32, Frame)],
) -> Result<(), AllocError>
    requires references { AreReferences pool.now slots }
    requires tabled { AreTabled 0 listed.now }
    ensures { OnOk result (AppendsShortest pool.now parameters.now listed.now
        bytes.old.items bytes.new.items) }
{
    let mut before = parameters;
    let mut last = None;
    let mut rest = listed;
    while let Some((next, others)) = rest.split_first() {
        let locals = trimmed(next.1.locals.as_slice());
        append_next(alloc, bytes, pool, slots, before, last, next, locals)?;
        before = locals;
        last = Some(next.0);
        rest = others;
    }
    Ok(())
}

// Appends the shortest frame that gives one with these local variables behind others.
fn append_next(
    alloc: Global,
    bytes: &mut Vec<u8>,
    pool: &[Entry],
    slots: ReferenceSlots,
    before: &[Kind],
    last: Option<u32>,
    next: &(u32, Frame),
    locals: &[Kind],
) -> Result<(), AllocError>
    requires references { AreReferences pool.now slots }
    requires tabled { IsTabled (start_of last) next.now }
    requires locals { locals.now ≡ trimmed_locals next.now.1.locals }
    ensures { OnOk result (AppendsNext pool.now before.now last next.now locals.now
        bytes.old.items bytes.new.items) }
{
    let delta = delta_behind(last, next.0);
    let stack = next.1.stack.to_vec(alloc)?;
    let frame = shortest_frame(alloc, slots, before, delta, locals, stack.as_slice())?;
    append_frame(bytes, &frame)?;
    Ok(())
}

/// By how much an offset is told, behind the last one.
pub fn delta_behind(last: Option<u32>, at: u32) -> u16
    requires near { at < 65535 }
    requires rises { IfSome last (λ l. l < at) }
    ensures first { IfNone last (result ≡ at) }
    ensures later { IfSome last (λ l. l + result + 1 ≡ at) }
{
    match last {
        None => at as u16,
        Some(last) => (at - last - 1) as u16,
    }
}

/// Local variables without those at the end of which nothing is known.
pub fn trimmed(locals: &[Kind]) -> &[Kind]
    ensures { result.now ≡ trimmed_locals locals.now }
{
    let mut rest = locals;
    while let Some((last, others)) = rest.split_last() {
        if !is_same(*last, Kind::Top) {
            return rest;
        }
        rest = others;
    }
    rest
}
