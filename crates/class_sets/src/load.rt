//! Loading a set of classes.
ghost use Rattle.std.specs.Prelude.{◌≡◌, ◌++◌, ◌∷◌, [], IfOk, OnOk};
ghost use Rattle.nv_outside.specs.Faults.{CountsFailure, shelf_failed};
ghost use Rattle.nv_outside.specs.Files.{SameFiles};
ghost use Rattle.class_sets.specs.ClassSets.{IsLoaded, set_of_classes};
ghost use Rattle.class_sets.specs.Kept.{IsKeptSet};

use crate::loaded::Loaded;
use crate::names::Names;
use crate::reading::class_of;
use jvm_code::Class;
use jvm_definition::Sequence;
use nv_outside::{Shelf, ShelfError};
use std::alloc::{AllocError, Global};

/// One class more than a program can have.
const CLASSES: u32 = 1025;

/// The set of a class: the class whose file has this name, and then, class by class and slot by slot, those of which a
/// class of the set has an entry. Each name is asked for once. A class other than the first whose file is not there is
/// left out, and the set ends with the 1,025th class. Each class is read when it was loaded, so the first one at fault
/// ends it. Over a shelf that tells nothing it is the set of some files.
///
/// # Errors
///
/// Failed where the shelf failed. NoMemory.
pub fn load_set<H: Shelf>(alloc: Global, shelf: &mut H, name: &str) -> Result<Loaded, ShelfError>
    ensures loaded { IfOk result (IsLoaded (H.files shelf.old) name.now) }
    ensures kept { IfOk result IsKeptSet }
    ensures same { SameFiles (H.files shelf.old) (H.files shelf.new) }
    ensures count { CountsFailure (shelf_failed result) (H.faults shelf.old) (H.faults shelf.new) }
{
    let mut names = Names::new(alloc, name)?;
    let mut classes = Vec::new(alloc);
    for number in 0..CLASSES {
        let Some(bytes) = names.next_file(alloc, shelf)? else {
            return Ok(set_of(classes));
        };
        match class_of(alloc, bytes.as_slice())? {
            Ok(class) => {
                names.add(alloc, &class)?;
                push(&mut classes, class)?;
            }
            Err(fault) => {
                return Ok(Loaded::Faulty {
                    class: number,
                    fault,
                });
            }
        }
    }
    Ok(set_of(classes))
}

// The set of classes, and none where the first one is not there.
fn set_of(classes: Vec<Class>) -> Loaded
    ensures { result ≡ set_of_classes classes.items }
{
    if classes.is_empty() {
        Loaded::NoFile
    } else {
        Loaded::Classes(Sequence::new(classes))
    }
}

fn push(classes: &mut Vec<Class>, class: Class) -> Result<(), AllocError>
    ensures { OnOk result (classes.new.items ≡ classes.old.items ++ class ∷ []) }
{
    classes.push(class)?;
    Ok(())
}
