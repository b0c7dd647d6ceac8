//! Classes with their tables as files.
ghost use Rattle.std.specs.Prelude.{◌≡◌, All, IfOk, length, map, string_bytes};
ghost use Rattle.class_sets.specs.ClassSets.{file_of};
ghost use Rattle.class_definition.specs.FramedClassFile.{SpellsFramed};
ghost use Rattle.stackmap_maker.specs.Refusals.{IsWritable};
ghost use Rattle.command_frames.specs.Frames.{AreWritten, deed_of};

use crate::stored_class::StoredClass;
use class_definition::FramedClass;
use class_sets::{Name, class_file};
use class_writer::write_class_51;
use std::alloc::{AllocError, Global};

/// The files of classes with their tables, under their names, which are as many.
pub fn write_classes(
    alloc: Global,
    names: &[Name],
    framed: &[FramedClass],
) -> Result<Vec<StoredClass>, AllocError>
    requires count { length names.now ≡ length framed.now }
    requires writable { All IsWritable framed.now }
    ensures { IfOk result (λ files. AreWritten names.now framed.now (map deed_of files.items)) }
{
    let mut files = Vec::new(alloc);
    for number in 0..framed.len() {
        files.push(write_class(alloc, &names[number], &framed[number])?)?;
    }
    Ok(files)
}

fn write_class(alloc: Global, name: &Name, framed: &FramedClass) -> Result<StoredClass, AllocError>
    requires { IsWritable framed.now }
    ensures name { IfOk result (λ file. string_bytes file.name ≡ file_of name.now) }
    ensures bytes { IfOk result (λ file. SpellsFramed file.bytes.items framed.now) }
{
    let name = class_file(alloc, name.as_str())?;
    let Ok(bytes) = write_class_51(alloc, framed) else {
        return Err(AllocError);
    };
    Ok(StoredClass { name, bytes })
}
