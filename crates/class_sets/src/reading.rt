//! The files of classes.
ghost use Rattle.std.specs.Prelude.{◌≡◌, IfOk, string_bytes};
ghost use Rattle.nv_outside.specs.Faults.{CountsFailure, shelf_failed};
ghost use Rattle.nv_outside.specs.Files.{Finds, SameFiles};
ghost use Rattle.class_names.specs.Kept.{IsClass};
ghost use Rattle.class_sets.specs.ClassSets.{class_in_bytes, file_of};

use class_format::ClassFault;
use class_reader::{ReadError, read_class};
use jvm_code::Class;
use nv_outside::{Shelf, ShelfError};
use std::alloc::{AllocError, Global};

/// The bytes of the file of a class, or None where there is no such file.
pub fn load_file<H: Shelf>(
    alloc: Global,
    shelf: &mut H,
    name: &str,
) -> Result<Option<Vec<u8>>, ShelfError>
    ensures found { IfOk result (Finds (H.files shelf.old) (file_of name.now)) }
    ensures same { SameFiles (H.files shelf.old) (H.files shelf.new) }
    ensures count { CountsFailure (shelf_failed result) (H.faults shelf.old) (H.faults shelf.new) }
{
    let file = class_file(alloc, name)?;
    shelf.load(alloc, file.as_str())
}

/// The name of the file of a class.
pub fn class_file(alloc: Global, name: &str) -> Result<String, AllocError>
    ensures { IfOk result (λ file. string_bytes file ≡ file_of name.now) }
{
    let mut file = String::from_str(alloc, name)?;
    file.push_str(".class")?;
    Ok(file)
}

/// The class that bytes spell, or the first rule that they break.
pub fn class_of(alloc: Global, bytes: &[u8]) -> Result<Result<Class, ClassFault>, AllocError>
    ensures is { IfOk result (λ read. read ≡ class_in_bytes bytes.now) }
    ensures kept { IfOk result (λ read. IfOk read IsClass) }
{
    match read_class(alloc, bytes) {
        Ok(class) => Ok(Ok(class)),
        Err(ReadError::Refused(fault)) => Ok(Err(fault)),
        Err(ReadError::NoMemory) => Err(AllocError),
    }
}
