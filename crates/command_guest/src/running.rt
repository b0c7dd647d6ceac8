ghost use Rattle.std.specs.Prelude.{◌≤◌};
ghost use Rattle.command_words.specs.Limits.{AreFileNames};
ghost use Rattle.command_deeds.specs.Ends.{Ends};
ghost use Rattle.command_deeds.specs.Runs.{plan_of};
ghost use Rattle.command_guest.specs.Classes.{IsDueOfRun};

use crate::accepting::accept;
use command_deeds::{Done, Ending, Launch, Outside, play_session};
use command_words::NamedClass;
use jvm_machine::Jvm;
use nv_outside::{Shelf, Sink, Source};
use nv_values::RegionWords;
use std::alloc::Global;

/// Loads the set of a class, links it and verifies it, runs it in a region of so many words, and keeps files.
pub fn run<H: Shelf, S: Source, O: Sink, E: Sink>(
    alloc: Global,
    class: &NamedClass,
    words: RegionWords,
    launch: &Launch<'_>,
    outside: &mut Outside<'_, H, S, O, E>,
) -> Result<Done, Ending>
    requires disk { launch.now.session.now.disk ≤ 65536 }
    requires names { AreFileNames launch.now.session.now.with.names }
    ensures ends { Ends H.Shelf S.Source O.Sink E.Sink
        (IsDueOfRun class.now words (plan_of launch.now)) outside.old outside.new result }
{
    let verified = accept(alloc, class, outside.shelf)?;
    let jvm = Jvm::load(alloc, verified, words)?;
    play_session(alloc, launch, jvm, outside)
}
