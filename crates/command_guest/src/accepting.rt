ghost use Rattle.std.specs.Prelude.{All};
ghost use Rattle.class_names.specs.Kept.{IsClass};
ghost use Rattle.class_sets.specs.Kept.{IsKeptSet};
ghost use Rattle.command_deeds.specs.Ends.{Gives, Makes};
ghost use Rattle.command_deeds.specs.World.{shelf_seen};
ghost use Rattle.command_guest.specs.Classes.{IsAccepted, IsAcceptedLoaded, IsAcceptedSet, IsTypeChecked, classes_of};

use class_sets::{Loaded, class_file, load_set};
use command_deeds::{Done, Ending, Stop};
use command_words::NamedClass;
use jvm_code::Class;
use jvm_link::{LinkError, Linked, link};
use nv_outside::Shelf;
use std::alloc::Global;
use type_verifier::{Verified, VerifyError, verify};

/// Loads the set of a class, links it and verifies it.
pub fn accept<H: Shelf>(
    alloc: Global,
    class: &NamedClass,
    shelf: &mut H,
) -> Result<Verified, Ending>
    ensures gives { Gives (λ files check. IsAcceptedSet class.now files (classes_of check))
        (shelf_seen H.Shelf shelf.old) (shelf_seen H.Shelf shelf.new) result }
{
    let loaded = load_set(alloc, shelf, class.name.as_str())?;
    accept_loaded(alloc, class, loaded)
}

/// Links and verifies a set that was loaded, if it was.
pub fn accept_loaded(alloc: Global, named: &NamedClass, loaded: Loaded) -> Result<Verified, Ending>
    requires kept { IsKeptSet loaded }
    ensures makes { Makes (λ check. IsAcceptedLoaded named.now loaded (classes_of check)) result }
{
    match loaded {
        Loaded::NoFile => Err(Ending::NoFile {
            word: named.word,
            name: class_file(alloc, named.name.as_str())?,
        }),
        Loaded::Faulty { class, fault } => Err(Ending::Refused(Done::ClassRefused {
            class,
            kind: fault.kind,
            at: fault.at,
        })),
        Loaded::Classes(classes) => accept_classes(alloc, classes.into_vec()),
    }
}

/// Links classes and verifies them.
fn accept_classes(alloc: Global, classes: Vec<Class>) -> Result<Verified, Ending>
    requires kept { All IsClass classes.items }
    ensures makes { Makes (λ check. IsAccepted classes.items (classes_of check)) result }
{
    match link(alloc, classes) {
        Ok(linked) => accept_linked(alloc, linked),
        Err(LinkError::Refused(fault)) => Err(Ending::Refused(Done::LinkRefused(fault))),
        Err(LinkError::NoMemory) => Err(Ending::Stopped(Stop::NoMemory)),
    }
}

/// Verifies linked classes.
fn accept_linked(alloc: Global, linked: Linked) -> Result<Verified, Ending>
    ensures makes { Makes (λ check. IsTypeChecked linked.classes (classes_of check)) result }
{
    match verify(alloc, linked) {
        Ok(verified) => Ok(verified),
        Err(VerifyError::Refused(fault)) => Err(Ending::Refused(Done::VerifyRefused(fault))),
        Err(VerifyError::NoMemory) => Err(Ending::Stopped(Stop::NoMemory)),
    }
}
