//! Sets that were loaded become classes with tables of frames.
ghost use Rattle.std.specs.Prelude.{Ok, All, IfOk};
ghost use Rattle.class_names.specs.Kept.{IsClass};
ghost use Rattle.class_sets.specs.Kept.{IsKeptSet};
ghost use Rattle.stackmap_maker.specs.Refusals.{IsWritable};
ghost use Rattle.command_deeds.specs.Ends.{Makes};
ghost use Rattle.command_guest.specs.Classes.{IsTypeChecked, classes_of, link_checked};
ghost use Rattle.command_frames.specs.Frames.{IsFramedBehind, IsFramedLoaded, IsFramedTo, framed_of};

use class_definition::FramedClass;
use class_sets::{Loaded, class_file};
use command_deeds::{Done, Ending, Stop};
use command_words::NamedClass;
use frame_maps::FrameError;
use jvm_code::Class;
use jvm_link::{LinkError, Linked, link};
use stackmap_maker::verified_frames;
use std::alloc::Global;
use type_verifier::{Verified, VerifyError, verify};

/// Links and verifies a set that was loaded, if it was, and gives its classes tables of frames.
pub fn framed_loaded(
    alloc: Global,
    named: &NamedClass,
    loaded: Loaded,
) -> Result<Vec<FramedClass>, Ending>
    requires kept { IsKeptSet loaded }
    ensures makes { Makes (λ check. IsFramedLoaded named.now loaded (framed_of check)) result }
    ensures writable { IfOk result (λ framed. All IsWritable framed.items) }
{
    match loaded {
        Loaded::NoFile => Err(Ending::NoFile {
            word: named.word,
            name: class_file(alloc, named.name.as_str())?,
        }),
        Loaded::Faulty { class, fault } => Err(Ending::Refused(Done::ClassRefused {
            class,
            kind: fault.kind,
            at: fault.at,
        })),
        Loaded::Classes(classes) => framed_members(alloc, classes.into_vec()),
    }
}

/// Links classes, verifies them, and gives them tables.
fn framed_members(alloc: Global, classes: Vec<Class>) -> Result<Vec<FramedClass>, Ending>
    requires kept { All IsClass classes.items }
    ensures makes { Makes (λ check.
        IsFramedBehind (link_checked classes.items) (framed_of check)) result }
    ensures writable { IfOk result (λ framed. All IsWritable framed.items) }
{
    match link(alloc, classes) {
        Ok(linked) => framed_linked(alloc, linked),
        Err(LinkError::Refused(fault)) => Err(Ending::Refused(Done::LinkRefused(fault))),
        Err(LinkError::NoMemory) => Err(Ending::Stopped(Stop::NoMemory)),
    }
}

/// Linked classes get tables, which shows that all their methods are typed; where they get none, it is looked for what comes first:
/// a method that is not typed, or why typed ones get none.
fn framed_linked(alloc: Global, linked: Linked) -> Result<Vec<FramedClass>, Ending>
    ensures makes { Makes (λ check. IsFramedBehind (Ok linked.classes) (framed_of check)) result }
    ensures writable { IfOk result (λ framed. All IsWritable framed.items) }
{
    match verified_frames(alloc, &linked) {
        Ok(framed) => Ok(framed),
        Err(_unframed) => verified_first(alloc, linked),
    }
}

/// Linked classes are verified, and then get tables.
fn verified_first(alloc: Global, linked: Linked) -> Result<Vec<FramedClass>, Ending>
    ensures makes { Makes (λ check. IsFramedBehind (Ok linked.classes) (framed_of check)) result }
    ensures writable { IfOk result (λ framed. All IsWritable framed.items) }
{
    let verified = accept_linked(alloc, linked)?;
    with_tables(alloc, verified)
}

/// Verifies linked classes.
fn accept_linked(alloc: Global, linked: Linked) -> Result<Verified, Ending>
    ensures makes { Makes (λ check. IsTypeChecked linked.classes (classes_of check)) result }
{
    match verify(alloc, linked) {
        Ok(verified) => Ok(verified),
        Err(VerifyError::Refused(fault)) => Err(Ending::Refused(Done::VerifyRefused(fault))),
        Err(VerifyError::NoMemory) => Err(Ending::Stopped(Stop::NoMemory)),
    }
}

/// Verified classes with their tables.
fn with_tables(alloc: Global, verified: Verified) -> Result<Vec<FramedClass>, Ending>
    ensures makes { Makes (λ check. IsFramedTo verified.linked.classes (framed_of check)) result }
    ensures writable { IfOk result (λ framed. All IsWritable framed.items) }
{
    match stackmap_maker::frames(alloc, &verified) {
        Ok(framed) => Ok(framed),
        Err(FrameError::Refused(fault)) => Err(Ending::Refused(Done::FrameRefused(fault))),
        Err(FrameError::TooLarge { class, bytes }) => {
            Err(Ending::Refused(Done::FramesTooLarge { class, bytes }))
        }
        Err(FrameError::NoMemory) => Err(Ending::Stopped(Stop::NoMemory)),
    }
}
