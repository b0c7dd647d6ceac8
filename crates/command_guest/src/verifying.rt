ghost use Rattle.command_deeds.specs.Ends.{Ends};
ghost use Rattle.command_deeds.specs.World.{Writes, output_seen};
ghost use Rattle.command_guest.specs.Classes.{IsDueOfVerify, counts_line};

use crate::accepting::accept;
use command_deeds::{Done, Ending, Outside, decimal_long, write_pieces};
use command_words::NamedClass;
use itoa::Buffer;
use jvm_link::Linked;
use nv_outside::{Failed, Shelf, Sink, Source};
use std::alloc::Global;

/// Loads the set of a class, links it and verifies it, and writes how many classes and methods it has.
pub fn verify<H: Shelf, S: Source, O: Sink, E: Sink>(
    alloc: Global,
    class: &NamedClass,
    outside: &mut Outside<'_, H, S, O, E>,
) -> Result<Done, Ending>
    ensures ends { Ends H.Shelf S.Source O.Sink E.Sink (IsDueOfVerify class.now)
        outside.old outside.new result }
{
    let verified = accept(alloc, class, outside.shelf)?;
    write_counts(&verified.linked, outside.out)?;
    Ok(Done::Good)
}

/// Writes how many classes and methods there are. Takes no memory.
pub fn write_counts<O: Sink>(linked: &Linked, out: &mut O) -> Result<(), Failed>
    ensures writes { Writes (output_seen O.Sink out.old) (output_seen O.Sink out.new)
        (counts_line linked.now.classes) result }
{
    let (mut class_digits, mut method_digits) = (Buffer::new(), Buffer::new());
    let classes = decimal_long(&mut class_digits, linked.classes.as_slice().len() as u64);
    let methods = decimal_long(&mut method_digits, linked.methods.as_slice().len() as u64);
    write_pieces(out, &[b"classes ", classes, b" methods ", methods, b"\n"])
}
