//! The command `frames`.
ghost use Rattle.std.specs.Prelude.{◌≡◌};
ghost use Rattle.class_sets.specs.NamedKept.{IsKeptSet};
ghost use Rattle.class_sets.specs.Plain.{loaded_of, loaded_names};
ghost use Rattle.class_sets.specs.declared.version.Version.TheVariants.{V48};
ghost use Rattle.command_deeds.specs.Ends.{Ends, Gives, Makes};
ghost use Rattle.command_deeds.specs.World.{shelf_seen};
ghost use Rattle.command_frames.specs.Frames.{AreFilesOfSet, AreFilesOf, IsDueOfFrames, deeds_of};

use crate::stored_class::StoredClass;
use crate::storing::store_classes;
use crate::tabling::framed_loaded;
use crate::writing::write_classes;
use class_sets::{Loaded, Name, NamedSet, Version, load_named_set};
use command_deeds::{Done, Ending, Outside, write_number};
use command_words::NamedClass;
use jvm_definition::Sequence;
use nv_outside::{Shelf, Sink, Source};
use std::alloc::Global;

/// Loads the set of a class, links it and verifies it, stores its classes with tables of frames under the names by which they were
/// loaded, and writes how many they are.
pub fn frames<H: Shelf, S: Source, O: Sink, E: Sink>(
    alloc: Global,
    class: &NamedClass,
    outside: &mut Outside<'_, H, S, O, E>,
) -> Result<Done, Ending>
    ensures ends { Ends H.Shelf S.Source O.Sink E.Sink (IsDueOfFrames class.now)
        outside.old outside.new result }
{
    let classes = framed_classes(alloc, class, outside.shelf)?;
    store_classes(&classes, outside.shelf)?;
    write_number(outside.out, b"classes ", classes.as_slice().len() as u64)?;
    Ok(Done::Good)
}

/// Loads the set of a class, links it and verifies it, and gives its classes tables of frames.
fn framed_classes<H: Shelf>(
    alloc: Global,
    class: &NamedClass,
    shelf: &mut H,
) -> Result<Vec<StoredClass>, Ending>
    ensures gives { Gives (λ files check. AreFilesOf class.now files (deeds_of check))
        (shelf_seen H.Shelf shelf.old) (shelf_seen H.Shelf shelf.new) result }
{
    let set = load_named_set(alloc, shelf, Version::V48, class.name.as_str())?;
    framed_set(alloc, class, set)
}

fn framed_set(alloc: Global, named: &NamedClass, set: NamedSet) -> Result<Vec<StoredClass>, Ending>
    requires kept { IsKeptSet V48 set }
    ensures makes { Makes (λ check. AreFilesOfSet named.now set (deeds_of check)) result }
{
    let (names, loaded) = apart(alloc, set);
    let framed = framed_loaded(alloc, named, loaded)?;
    Ok(write_classes(alloc, names.as_slice(), &framed)?)
}

/// The names of a set, and the set without them.
fn apart(alloc: Global, set: NamedSet) -> (Sequence<Name>, Loaded)
    ensures names { result.0 ≡ loaded_names set }
    ensures loaded { result.1 ≡ loaded_of set }
{
    match set {
        NamedSet::NoFile => (Sequence::new(Vec::new(alloc)), Loaded::NoFile),
        NamedSet::Faulty { class, fault } => {
            (
                Sequence::new(Vec::new(alloc)),
                Loaded::Faulty { class, fault },
            )
        }
        NamedSet::Classes(members) => (members.names, Loaded::Classes(members.classes)),
    }
}
