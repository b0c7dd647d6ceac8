ghost use Rattle.std.specs.Prelude.{◌≡◌, ◌≤◌, ◌<◌, ◌^◌, length};
ghost use Rattle.obj_reader.specs.Files.{files_of};
ghost use Rattle.command_deeds.specs.Checks.{bytes_of};
ghost use Rattle.command_deeds.specs.Ends.{Ends, Makes};
ghost use Rattle.command_link.specs.Linking.{IsDueOfLink, IsProgramOf, object_too_large};

use crate::loading::load_files;
use command_deeds::{Done, Ending, Outside, Stop, store, write_number};
use command_words::Named;
use nv_outside::{Shelf, Sink, Source};
use obj_linker::{ObjError, ObjFault, first_too_large, link_objects};
use std::alloc::Global;

/// Loads objects, links them to a program that begins at a symbol, stores it, and writes how many bytes it has.
pub fn link<H: Shelf, S: Source, O: Sink, E: Sink>(
    alloc: Global,
    output: &str,
    inputs: &[Named],
    entry: &str,
    outside: &mut Outside<'_, H, S, O, E>,
) -> Result<Done, Ending>
    requires few { length inputs.now ≤ 256 }
    ensures ends { Ends H.Shelf S.Source O.Sink E.Sink
        (IsDueOfLink output.now inputs.now entry.now) outside.old outside.new result }
{
    let objects = load_files(alloc, inputs, outside.shelf)?;
    let program = linked(alloc, objects.as_slice(), entry)?;
    store(outside.shelf, output, program.as_slice())?;
    write_number(outside.out, b"bytes ", program.as_slice().len() as u64)?;
    Ok(Done::Good)
}

/// The program of objects.
fn linked(alloc: Global, objects: &[Vec<u8>], entry: &str) -> Result<Vec<u8>, Ending>
    requires few { length objects.now ≤ 256 }
    ensures makes { Makes (λ check. IsProgramOf entry.now (files_of objects.now) (bytes_of check))
        result }
{
    if let Some(object) = first_too_large(objects) {
        return Err(Ending::Refused(Done::ObjRefused(too_large(object))));
    }
    match link_objects(alloc, objects, entry) {
        Ok(program) => Ok(program),
        Err(ObjError::Refused(fault)) => Err(Ending::Refused(Done::ObjRefused(fault))),
        Err(ObjError::NoMemory) => Err(Ending::Stopped(Stop::NoMemory)),
    }
}

/// The fault of an object of this number, that it is too large.
fn too_large(object: usize) -> ObjFault
    requires { object < 2 ^ 32 }
    ensures { result ≡ object_too_large object }
{
    ObjFault {
        object: object as u32,
        kind: ObjFault::OBJECT_TOO_LARGE,
        at: 0,
    }
}
