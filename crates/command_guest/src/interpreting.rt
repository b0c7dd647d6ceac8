ghost use Rattle.std.specs.Prelude.{◌≤◌};
ghost use Rattle.command_words.specs.Limits.{AreFileNames, ArePages};
ghost use Rattle.command_deeds.specs.Ends.{Ends};
ghost use Rattle.command_deeds.specs.Runs.{plan_of};
ghost use Rattle.command_guest.specs.Interp.{IsDueOfInterp};

use crate::guest::Guest;
use crate::imaging::load_image;
use command_deeds::{Done, Ending, Outside, play_session};
use mips_machine::Mips;
use nv_outside::{Shelf, Sink, Source};
use std::alloc::Global;

/// Loads a program, runs it on the reference machine, and keeps files of it.
pub fn interp<H: Shelf, S: Source, O: Sink, E: Sink>(
    alloc: Global,
    guest: &Guest<'_>,
    outside: &mut Outside<'_, H, S, O, E>,
) -> Result<Done, Ending>
    requires pages { ArePages guest.now.pages }
    requires disk { guest.now.launch.session.now.disk ≤ 65536 }
    requires names { AreFileNames guest.now.launch.session.now.with.names }
    ensures ends { Ends H.Shelf S.Source O.Sink E.Sink
        (IsDueOfInterp guest.now.input.now guest.now.pages (plan_of guest.now.launch))
        outside.old outside.new result }
{
    let image = load_image(alloc, guest.input, guest.pages, outside.shelf)?;
    let mips = Mips::load(alloc, &image)?;
    play_session(alloc, &guest.launch, mips, outside)
}
