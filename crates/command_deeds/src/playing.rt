//! The run of any machine on its system, with arguments and files.
ghost use Rattle.std.specs.Prelude.{◌≡◌, ◌≤◌, false};
ghost use Rattle.command_words.specs.Limits.{AreFileNames};
ghost use Rattle.command_deeds.specs.Ends.{Ends, WorksOn, ended};
ghost use Rattle.command_deeds.specs.World.{SameParts, seen};
ghost use Rattle.command_deeds.specs.Runs.{IsDueOfHeld, IsDueOfPlay, plan_of};

use crate::done::Done;
use crate::ending::Ending;
use crate::keeping::keep_files;
use crate::launch::Launch;
use crate::outcomes::answer_of;
use crate::outside::Outside;
use crate::readying::ready;
use command_words::NameList;
use nv_events::Machine;
use nv_outside::{Shelf, Sink, Source};
use std::alloc::Global;
use unix_calls::laws::begins_at_start;
use unix_calls::{Unix, play};

/// Makes the system of a machine ready, runs the machine on it, and keeps files.
pub fn play_session<M: Machine + Drop, H: Shelf, S: Source, O: Sink, E: Sink>(
    alloc: Global,
    launch: &Launch<'_>,
    machine: M,
    outside: &mut Outside<'_, H, S, O, E>,
) -> Result<Done, Ending>
    requires going { M.has_ended machine ≡ false }
    requires disk { launch.now.session.now.disk ≤ 65536 }
    requires names { AreFileNames launch.now.session.now.with.names }
    ensures ends { Ends H.Shelf S.Source O.Sink E.Sink
        (IsDueOfPlay M.turn (M.state machine) (plan_of launch.now))
        outside.old outside.new result }
{
    begins_at_start();
    let session = launch.session;
    let unix = ready(alloc, launch, outside.shelf)?;
    play_for(alloc, session.steps, machine, unix, &session.keep, outside)
}

/// Runs a machine over its system for so many steps, and keeps files of these names.
pub fn play_for<M: Machine + Drop, H: Shelf, S: Source, O: Sink, E: Sink>(
    alloc: Global,
    steps: u64,
    machine: M,
    unix: Unix,
    keep: &NameList,
    outside: &mut Outside<'_, H, S, O, E>,
) -> Result<Done, Ending>
    requires going { M.has_ended machine ≡ false }
    ensures same { SameParts outside.old outside.new }
    ensures works { WorksOn
        (λ w. IsDueOfHeld steps M.turn (M.state machine) unix keep.now.names w.input.told)
        (seen H.Shelf S.Source O.Sink E.Sink outside.old)
        (seen H.Shelf S.Source O.Sink E.Sink outside.new) (ended result) }
{
    let mut machine = machine;
    let mut unix = unix;
    let outcome = play(
        &mut machine,
        steps,
        &mut unix,
        outside.input,
        outside.out,
        outside.err,
    )?;
    keep_files(alloc, &unix, keep.names.as_slice(), outside.shelf)?;
    Ok(answer_of(outcome))
}
