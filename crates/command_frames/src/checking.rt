//! The command `check`.
ghost use Rattle.class_sets.specs.NamedKept.{AreKept, IsKeptSet};
ghost use Rattle.class_sets.specs.declared.version.Version.TheVariants.{V51};
ghost use Rattle.frame_maps.specs.Checked.{HaveTables};
ghost use Rattle.command_deeds.specs.Ends.{Ends, Gives, Makes};
ghost use Rattle.command_deeds.specs.World.{shelf_seen};
ghost use Rattle.command_frames.specs.Check.{IsCheckedFrom, IsCheckedLoaded, IsDueOfCheck, IsFrameChecked, IsLinkChecked, classes_of};

use class_sets::{Members, NamedSet, Version, class_file, load_named_set};
use command_deeds::{Done, Ending, Outside, Stop};
use command_guest::write_counts;
use command_words::NamedClass;
use frame_maps::FrameError;
use jvm_definition::Sequence;
use jvm_link::{LinkError, Linked, link};
use nv_outside::{Shelf, Sink, Source};
use std::alloc::Global;

/// Loads the set of a class, of classes of version 51.0, links it, checks whether each method is typed by the frames that its table
/// lists, and writes how many classes and methods it has.
pub fn check<H: Shelf, S: Source, O: Sink, E: Sink>(
    alloc: Global,
    class: &NamedClass,
    outside: &mut Outside<'_, H, S, O, E>,
) -> Result<Done, Ending>
    ensures ends { Ends H.Shelf S.Source O.Sink E.Sink (IsDueOfCheck class.now)
        outside.old outside.new result }
{
    let linked = checked_classes(alloc, class, outside.shelf)?;
    write_counts(&linked, outside.out)?;
    Ok(Done::Good)
}

/// Loads the set of a class, links it and checks it.
fn checked_classes<H: Shelf>(
    alloc: Global,
    class: &NamedClass,
    shelf: &mut H,
) -> Result<Linked, Ending>
    ensures gives { Gives (λ files check. IsCheckedFrom class.now files (classes_of check))
        (shelf_seen H.Shelf shelf.old) (shelf_seen H.Shelf shelf.new) result }
{
    let set = load_named_set(alloc, shelf, Version::V51, class.name.as_str())?;
    check_set(alloc, class, set)
}

/// Links and checks a set that was loaded, if it was.
fn check_set(alloc: Global, named: &NamedClass, set: NamedSet) -> Result<Linked, Ending>
    requires kept { IsKeptSet V51 set }
    ensures makes { Makes (λ check. IsCheckedLoaded named.now set (classes_of check)) result }
{
    match set {
        NamedSet::NoFile => Err(Ending::NoFile {
            word: named.word,
            name: class_file(alloc, named.name.as_str())?,
        }),
        NamedSet::Faulty { class, fault } => Err(Ending::Refused(Done::ClassRefused {
            class,
            kind: fault.kind,
            at: fault.at,
        })),
        NamedSet::Classes(members) => check_members(alloc, members),
    }
}

/// Links classes and checks them.
fn check_members(alloc: Global, members: Members) -> Result<Linked, Ending>
    requires kept { AreKept V51 members }
    ensures makes { Makes (λ check. IsLinkChecked members (classes_of check)) result }
{
    let tables = members.tables;
    match link(alloc, members.classes.into_vec()) {
        Ok(linked) => check_linked(alloc, linked, tables.as_slice()),
        Err(LinkError::Refused(fault)) => Err(Ending::Refused(Done::LinkRefused(fault))),
        Err(LinkError::NoMemory) => Err(Ending::Stopped(Stop::NoMemory)),
    }
}

/// Checks linked classes.
fn check_linked(
    alloc: Global,
    linked: Linked,
    tables: &[Sequence<Sequence<u8>>],
) -> Result<Linked, Ending>
    requires tables { HaveTables linked.classes tables.now }
    ensures makes { Makes (λ check. IsFrameChecked linked.classes tables.now (classes_of check))
        result }
{
    match frame_maps::check(alloc, &linked, tables) {
        Ok(()) => Ok(linked),
        Err(FrameError::Refused(fault)) => Err(Ending::Refused(Done::FrameRefused(fault))),
        Err(FrameError::TooLarge { class, bytes }) => {
            Err(Ending::Refused(Done::FramesTooLarge { class, bytes }))
        }
        Err(FrameError::NoMemory) => Err(Ending::Stopped(Stop::NoMemory)),
    }
}
