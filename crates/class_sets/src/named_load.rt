//! Loading a set of classes.
ghost use Rattle.std.specs.Prelude.{◌≡◌, ◌++◌, ◌∷◌, [], IfOk, OnOk};
ghost use Rattle.nv_outside.specs.Faults.{CountsFailure, shelf_failed};
ghost use Rattle.nv_outside.specs.Files.{SameFiles};
ghost use Rattle.class_sets.specs.NamedSets.{IsNamedSet, members_of, named_set_of};
ghost use Rattle.class_sets.specs.NamedKept.{IsKeptSet};

use crate::Names;
use crate::members::Members;
use crate::name::Name;
use crate::named_reading::class_of;
use crate::named_set::NamedSet;
use crate::version::Version;
use class_definition::FramedClass;
use jvm_code::Class;
use jvm_definition::Sequence;
use nv_outside::{Shelf, ShelfError};
use std::alloc::{AllocError, Global};

/// One class more than a program can have.
const CLASSES: u32 = 1025;

/// The set of a class, as [`load_set`](class_set::load_set) loads it, of classes of a version, each with the name by which it was
/// loaded.
///
/// # Errors
///
/// Failed where the shelf failed. NoMemory.
pub fn load_named_set<H: Shelf>(
    alloc: Global,
    shelf: &mut H,
    version: Version,
    name: &str,
) -> Result<NamedSet, ShelfError>
    ensures loaded { IfOk result (IsNamedSet version (H.files shelf.old) name.now) }
    ensures kept { IfOk result (IsKeptSet version) }
    ensures same { SameFiles (H.files shelf.old) (H.files shelf.new) }
    ensures count { CountsFailure (shelf_failed result) (H.faults shelf.old) (H.faults shelf.new) }
{
    let mut waiting = Names::new(alloc, name)?;
    let mut names = Vec::new(alloc);
    let mut classes = Vec::new(alloc);
    let mut tables = Vec::new(alloc);
    for number in 0..CLASSES {
        let Some(bytes) = waiting.next_file(alloc, shelf)? else {
            return Ok(set_of(names, classes, tables));
        };
        match class_of(alloc, version, bytes.as_slice())? {
            Ok(framed) => {
                waiting.add(alloc, &framed.class)?;
                push_name(alloc, &mut names, waiting.last_asked())?;
                push(&mut classes, &mut tables, framed)?;
            }
            Err(fault) => {
                return Ok(NamedSet::Faulty {
                    class: number,
                    fault,
                });
            }
        }
    }
    Ok(set_of(names, classes, tables))
}

// The set of classes, and none where the first one is not there.
fn set_of(names: Vec<Name>, classes: Vec<Class>, tables: Vec<Sequence<Sequence<u8>>>) -> NamedSet
    ensures { result ≡ named_set_of (members_of names.items classes.items tables.items) }
{
    if classes.is_empty() {
        NamedSet::NoFile
    } else {
        NamedSet::Classes(Members {
            names: Sequence::new(names),
            classes: Sequence::new(classes),
            tables: Sequence::new(tables),
        })
    }
}

fn push_name(alloc: Global, names: &mut Vec<Name>, name: &str) -> Result<(), AllocError>
    ensures { OnOk result (names.new.items ≡ names.old.items ++ name.now ∷ []) }
{
    names.push(Name::new(String::from_str(alloc, name)?))?;
    Ok(())
}

fn push(
    classes: &mut Vec<Class>,
    tables: &mut Vec<Sequence<Sequence<u8>>>,
    framed: FramedClass,
) -> Result<(), AllocError>
    ensures classes { OnOk result (classes.new.items ≡ classes.old.items ++ framed.class ∷ []) }
    ensures tables { OnOk result (tables.new.items ≡ tables.old.items ++ framed.tables ∷ []) }
{
    classes.push(framed.class)?;
    tables.push(framed.tables)?;
    Ok(())
}
