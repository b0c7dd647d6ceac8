//! Classes of version 51.0 for classes that link, and for those that were verified.
ghost use Rattle.std.specs.Prelude.{◌≡◌, ◌≤◌, IfOk, IfErr, All};
ghost use Rattle.class_definition.specs.Linking.{program_of};
ghost use Rattle.jvm_type_inference.specs.Verdict.{AllLeastTyped};
ghost use Rattle.stackmap_maker.specs.Refusals as refusals;
ghost use Rattle.stackmap_maker.specs.Sizes as sizes;

use crate::tabled_classes::TabledClasses;
use crate::unframed::Unframed;
use crate::{Unmade, classes_with_tables};
use class_definition::{FrameFault, FramedClass};
use frame_maps::FrameError;
use jvm_link::Linked;
use std::alloc::Global;
use type_verifier::Verified;

/// The classes with tables of frames, which can be verified in one pass. Each byte of code that no reached instruction holds becomes a
/// return; where one that gives an int is put in, a `max_stack` of 0 is raised. The pool has the entries that tables name, each at its
/// end where it was missing. A table lists the frames of the least typing, and those of returns that were put in, where one has to be
/// listed, each in the shortest form.
///
/// # Errors
///
/// Refused, of kind [`POOL`](FrameFault::POOL) and method 0: the first class whose pool has too few slots for these
/// entries. TooLarge: the first class whose file would have more than 67,108,864 bytes. NoMemory.
pub fn frames(alloc: Global, v: &Verified) -> Result<Vec<FramedClass>, FrameError>
    ensures framed { IfOk result (λ framed.
        refusals.AreWithTables v.now.linked.classes framed.items) }
    ensures writable { IfOk result (λ framed. All refusals.IsWritable framed.items) }
    ensures small { IfOk result (λ framed.
        All (λ f. sizes.file_size f ≤ sizes.most) framed.items) }
    ensures refused { IfErr result (refusals.IsFramesRefusal v.now.linked.classes) }
{
    match verified_frames(alloc, &v.linked) {
        Ok(framed) => Ok(framed),
        Err(Unframed::Untyped) => unreachable!(),
        Err(Unframed::Refused(error)) => Err(error),
    }
}

/// The same for classes that link, which are verified as their tables are made: each method is inferred once.
///
/// # Errors
///
/// Untyped: a method is not typed. Refused: as by [`frames`].
pub fn verified_frames(alloc: Global, linked: &Linked) -> Result<Vec<FramedClass>, Unframed>
    ensures typed { IfOk result (λ _. AllLeastTyped (program_of linked.now.classes)) }
    ensures framed { IfOk result (λ framed.
        refusals.AreWithTables linked.now.classes framed.items) }
    ensures writable { IfOk result (λ framed. All refusals.IsWritable framed.items) }
    ensures small { IfOk result (λ framed.
        All (λ f. sizes.file_size f ≤ sizes.most) framed.items) }
    ensures unframed { IfErr result (refusals.IsUnframed linked.now.classes) }
{
    match classes_with_tables(alloc, linked) {
        Ok(TabledClasses::Framed(framed)) => Ok(framed),
        Ok(TabledClasses::TooLarge { class, bytes }) => Err(Unframed::Refused(FrameError::TooLarge {
            class,
            bytes,
        })),
        Err(Unmade::Untyped) => Err(Unframed::Untyped),
        Err(Unmade::Full(class)) => Err(Unframed::Refused(full(class))),
        Err(Unmade::NoMemory) => Err(Unframed::Refused(FrameError::NoMemory)),
    }
}

// The refusal of a class whose pool has too few slots.
fn full(class: u32) -> FrameError
    ensures { refusals.IsFullFault class result }
{
    FrameError::Refused(FrameFault {
        class,
        method: 0,
        kind: FrameFault::POOL,
    })
}
