ghost use Rattle.std.specs.Prelude.{◌≡◌, ◌≤◌, All, IfErr, IfOk, OnOk, None, length};
ghost use Rattle.obj_reader.specs.Fault.{IsAnswer};
ghost use Rattle.obj_reader.specs.Files.{files_of, IsShort};
ghost use Rattle.obj_linker.specs.Link as spec;

use crate::placing::place;
use crate::program::write_program;
use crate::resolving::resolve;
use obj_reader::{ObjError, read_objects};
use std::alloc::Global;

/// Links objects into the bytes of an ELF file that begins at a symbol.
///
/// There are at most 256 objects of at most 67,108,864 bytes each, which `first_too_large` tests. The text begins at 00400000
/// (hexadecimal) with the code, the data at 10000000. Time and memory go by the bytes of the objects and of the program: names
/// are read once and compared by number, and no more relocations of an object are taken than its bytes hold.
///
/// # Errors
/// `Refused` with the first check that the objects fail; `NoMemory` where there is not enough memory, or where sections of
/// relocations share bytes, so that there are more of them than the bytes of their object hold.
#[tactic(auto, unfolding(crate::specs::Link::objects_fault))]
pub fn link_objects(alloc: Global, objects: &[Vec<u8>], entry: &str) -> Result<Vec<u8>, ObjError>
    requires few { length objects.now ≤ 256 }
    requires short { All IsShort (files_of objects.now) }
    ensures sound { OnOk result (spec.objects_fault (files_of objects.now) entry.now ≡ None) }
    ensures file { IfOk result (λ file. spec.IsLinked (files_of objects.now) entry.now file.items) }
    ensures refused { IfErr result (IsAnswer (spec.objects_fault (files_of objects.now) entry.now)) }
{
    let tables = read_objects(alloc, objects)?;
    let resolved = resolve(alloc, objects, &tables, entry.as_bytes())?;
    let placed = place(alloc, objects, &tables, &resolved)?;
    let file = write_program(alloc, placed.entry, placed.image.as_slice(), &placed.ends)?;
    Ok(file)
}
