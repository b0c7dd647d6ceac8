ghost use Rattle.std.specs.Prelude.{◌≤◌, ◌^◌, true};
ghost use Rattle.nv_translate.specs.Made.{AreMade};
ghost use Rattle.command_words.specs.Limits.{AreFileNames, ArePages};
ghost use Rattle.command_deeds.specs.Ends.{Comes, Ends, ended};
ghost use Rattle.command_deeds.specs.Runs.{plan_of};
ghost use Rattle.command_deeds.specs.World.{SameParts, seen};
ghost use Rattle.command_translate.specs.Go.{IsDueOfGo};
ghost use Rattle.command_translate.specs.Held.{IsDueOfHeldGo, IsDueOfHeldMetered};

use crate::metering::end_by_meter;
use crate::playing::play_stored;
use command_deeds::{Done, Ending, Launch, Outside, ready};
use command_guest::{Guest, load_image};
use elf_image::Image;
use nv_outside::{Shelf, Sink, Source};
use nv_translate::{allow, meter_allow, need, translate_files, translate_files_metered};
use nv_values::{MeterTurns, MethodBytes};
use std::alloc::Global;
use unix_calls::Unix;
use unix_calls::laws::begins_at_start;

/// Loads a program, translates it, stores its classes, runs them, and keeps files of the run. If the classes have a meter, they run until
/// the program ends, or so many of its steps are spent.
pub fn go<H: Shelf, S: Source, O: Sink, E: Sink>(
    alloc: Global,
    guest: &Guest<'_>,
    method_bytes: MethodBytes,
    meter: Option<MeterTurns>,
    outside: &mut Outside<'_, H, S, O, E>,
) -> Result<Done, Ending>
    requires pages { ArePages guest.now.pages }
    requires steps { guest.now.launch.session.now.steps ≤ 2 ^ 40 }
    requires disk { guest.now.launch.session.now.disk ≤ 65536 }
    requires names { AreFileNames guest.now.launch.session.now.with.names }
    ensures ends { Ends H.Shelf S.Source O.Sink E.Sink
        (IsDueOfGo AreMade guest.now.input.now guest.now.pages method_bytes meter
        (plan_of guest.now.launch)) outside.old outside.new result }
{
    begins_at_start();
    let launch = &guest.launch;
    let image = load_image(alloc, guest.input, guest.pages, outside.shelf)?;
    let unix = ready(alloc, launch, outside.shelf)?;
    match meter {
        Some(turns) => go_by_meter(alloc, launch, image, method_bytes, turns, unix, outside),
        None => go_by_steps(alloc, launch, image, method_bytes, unix, outside),
    }
}

/// Translates a program, stores its classes, runs them over a system as long as the program's steps allow it, and keeps files of the run. The
/// image is let go as soon as it is translated.
fn go_by_steps<H: Shelf, S: Source, O: Sink, E: Sink>(
    alloc: Global,
    launch: &Launch<'_>,
    image: Image,
    method_bytes: MethodBytes,
    unix: Unix,
    outside: &mut Outside<'_, H, S, O, E>,
) -> Result<Done, Ending>
    requires steps { launch.now.session.now.steps ≤ 2 ^ 40 }
    ensures same { SameParts outside.old outside.new }
    ensures comes { Comes true
        (λ w. IsDueOfHeldGo (plan_of launch.now) method_bytes image unix w.input.told)
        (seen H.Shelf S.Source O.Sink E.Sink outside.old)
        (seen H.Shelf S.Source O.Sink E.Sink outside.new) (ended result) }
{
    let session = launch.session;
    image.laws();
    let bound = allow(image.mapped(), session.steps);
    let words = need(&image);
    let made = translate_files(alloc, image, launch.name, method_bytes)?;
    let files = made.as_slice();
    play_stored(alloc, words, files, bound, unix, &session.keep, outside)
}

/// The same with classes that have a meter, which are run until it is spent.
fn go_by_meter<H: Shelf, S: Source, O: Sink, E: Sink>(
    alloc: Global,
    launch: &Launch<'_>,
    image: Image,
    method_bytes: MethodBytes,
    turns: MeterTurns,
    unix: Unix,
    outside: &mut Outside<'_, H, S, O, E>,
) -> Result<Done, Ending>
    ensures same { SameParts outside.old outside.new }
    ensures comes { Comes true
        (λ w. IsDueOfHeldMetered (plan_of launch.now) method_bytes turns image unix
        w.input.told)
        (seen H.Shelf S.Source O.Sink E.Sink outside.old)
        (seen H.Shelf S.Source O.Sink E.Sink outside.new) (ended result) }
{
    image.laws();
    let bound = meter_allow(image.mapped(), turns);
    let words = need(&image);
    let made = translate_files_metered(alloc, image, launch.name, method_bytes, turns)?;
    let files = made.as_slice();
    let end = play_stored(
        alloc,
        words,
        files,
        bound,
        unix,
        &launch.session.keep,
        outside,
    );
    end_by_meter(end)
}
