ghost use Rattle.std.specs.Prelude.{◌≡◌, Err, Ok};
ghost use Rattle.nv_translate.specs.Made.{AreMade};
ghost use Rattle.command_words.specs.Limits.{IsWithinLimits};
ghost use Rattle.command_words.specs.Meaning.{command_of};
ghost use Rattle.command_forms.specs.Word.{texts};
ghost use Rattle.command_words.specs.declared.command.Command as meant;
ghost use Rattle.command_forms.specs.declared.usage.Usage as misuse;
ghost use Rattle.command_deeds.specs.Ends.{Comes, ended, final};
ghost use Rattle.command_deeds.specs.Line.{answer_line};
ghost use Rattle.command_deeds.specs.World.{SameParts, input_seen, output_seen, seen, shelf_seen, world};
ghost use Rattle.nested_cli.specs.Commands.{Does, IsDueOf, loads_files};
ghost use Rattle.nested_cli.specs.Line.{Tells};
ghost use Rattle.nested_cli.specs.Usage.{Misuses};

use command_deeds::{Done, Ending, Launch, Outside, write_line};
use command_frames::{check, frames};
use command_guest::{Guest, asm, interp, list, run, verify};
use command_link::link;
use command_pipe::{PipeLaunch, pipe};
use command_translate::{go, make, translate};
use command_words::{Command, read_words};
use nv_outside::{Failed, Shelf, Sink, Source};
use std::alloc::Global;

/// The program: does what its words say, over a shelf of files, a source of input and sinks of output, and writes the
/// answer's line to `err` last.
///
/// `words` are the words after the program's name, and `moment` is the time, in seconds since 1970.
///
/// What it is to do follows from the words, from the files that it loads, which are those of the shelf where it tells
/// them, and for a run from the input, or where that does not tell what it has left, from pieces of it, one before each
/// call. All of it is done, or it is stopped on the way. Words that are no command line are answered `Usage`.
///
/// The answer is `WriteFault` where that last write failed, or a write to `out` or of the guest to `err`. One fault
/// ends the call: where a call of the outside failed, the answer is one of its faults, and nothing further is read,
/// written or stored but for the answer's line. A sink that failed has a front part of the text, but not all.
pub fn nested<H: Shelf, S: Source, O: Sink, E: Sink>(
    alloc: Global,
    words: &[String],
    moment: u64,
    shelf: &mut H,
    input: &mut S,
    out: &mut O,
    err: &mut E,
) -> Done
    ensures does { Does AreMade (texts words.now) moment
        (world (shelf_seen H.Shelf shelf.old) (input_seen S.Source input.old)
        (output_seen O.Sink out.old) (output_seen E.Sink err.old))
        (world (shelf_seen H.Shelf shelf.new) (input_seen S.Source input.new)
        (output_seen O.Sink out.new) (output_seen E.Sink err.new)) result }
{
    let mut outside = Outside::new(shelf, input, out, err);
    call(alloc, words, moment, &mut outside)
}

/// The same over parts that are joined.
fn call<H: Shelf, S: Source, O: Sink, E: Sink>(
    alloc: Global,
    words: &[String],
    moment: u64,
    outside: &mut Outside<'_, H, S, O, E>,
) -> Done
    ensures same { SameParts outside.old outside.new }
    ensures does { Does AreMade (texts words.now) moment (seen H.Shelf S.Source O.Sink E.Sink outside.old)
        (seen H.Shelf S.Source O.Sink E.Sink outside.new) result }
{
    let end = perform(alloc, words, moment, outside);
    let (done, name) = answer_of(&end);
    tell(outside.err, name, done)
}

/// The answer of a command that ended so, and the name that was asked for where it is that there is no such file.
fn answer_of(end: &Result<Done, Ending>) -> (Done, &str)
    ensures done { result.0 ≡ (final (ended end.now)).done }
    ensures name { result.1.now ≡ (final (ended end.now)).name }
{
    match end {
        Ok(done) => (*done, ""),
        Err(ending) => (ending.done(), ending.name()),
    }
}

/// Writes the line of an answer, and gives the answer. `name` is the name that was asked for where there is no such file.
fn tell<E: Sink>(err: &mut E, name: &str, done: Done) -> Done
    ensures tells { Tells (answer_line name.now done) (output_seen E.Sink err.old)
        (output_seen E.Sink err.new) done result }
{
    match write_line(err, name, &done) {
        Ok(()) => done,
        Err(Failed) => Done::WriteFault,
    }
}

/// Does what the words say, but for the answer's line.
fn perform<H: Shelf, S: Source, O: Sink, E: Sink>(
    alloc: Global,
    words: &[String],
    moment: u64,
    outside: &mut Outside<'_, H, S, O, E>,
) -> Result<Done, Ending>
    ensures same { SameParts outside.old outside.new }
    ensures usage { (u : misuse.Usage) → command_of (texts words.now) ≡ Err u
        → Misuses u (seen H.Shelf S.Source O.Sink E.Sink outside.old)
        (seen H.Shelf S.Source O.Sink E.Sink outside.new) (ended result) }
    ensures due { (c : meant.Command) → command_of (texts words.now) ≡ Ok c
        → Comes (loads_files c) (IsDueOf AreMade c moment) (seen H.Shelf S.Source O.Sink E.Sink outside.old)
        (seen H.Shelf S.Source O.Sink E.Sink outside.new) (ended result) }
{
    let command = read_words(alloc, words)?;
    perform_command(alloc, &command, moment, outside)
}

/// Does what a command says.
fn perform_command<H: Shelf, S: Source, O: Sink, E: Sink>(
    alloc: Global,
    command: &Command,
    moment: u64,
    outside: &mut Outside<'_, H, S, O, E>,
) -> Result<Done, Ending>
    requires { IsWithinLimits command.now }
    ensures same { SameParts outside.old outside.new }
    ensures due { Comes (loads_files command.now) (IsDueOf AreMade command.now moment)
        (seen H.Shelf S.Source O.Sink E.Sink outside.old)
        (seen H.Shelf S.Source O.Sink E.Sink outside.new) (ended result) }
{
    match command {
        Command::Go {
            input: file,
            name,
            pages,
            method_bytes,
            meter,
            session,
        } => {
            let guest = Guest {
                input: file,
                pages: *pages,
                launch: Launch::new(name, session, moment),
            };
            go(alloc, &guest, *method_bytes, *meter, outside)
        }
        Command::Translate {
            input: file,
            name,
            pages,
            method_bytes,
            meter,
        } => translate(alloc, file, name, *pages, *method_bytes, *meter, outside),
        Command::Interp {
            input: file,
            name,
            pages,
            session,
        } => {
            let guest = Guest {
                input: file,
                pages: *pages,
                launch: Launch::new(name, session, moment),
            };
            interp(alloc, &guest, outside)
        }
        Command::Asm {
            input: file,
            output,
        } => asm(alloc, file, output.as_str(), outside),
        Command::List { input: file } => list(alloc, file, outside),
        Command::Run {
            class,
            words,
            session,
        } => {
            let launch = Launch::new(&class.name, session, moment);
            run(alloc, class, *words, &launch, outside)
        }
        Command::Verify { class } => verify(alloc, class, outside),
        Command::Frames { class } => frames(alloc, class, outside),
        Command::Check { class } => check(alloc, class, outside),
        Command::Make {
            count,
            method_bytes,
        } => make(alloc, *count, *method_bytes, moment, outside),
        Command::Pipe {
            classes,
            words,
            steps,
            disk,
            pipe: size,
        } => {
            let launch = PipeLaunch {
                words: *words,
                steps: *steps,
                disk: *disk,
                size: *size,
                moment,
            };
            pipe(alloc, classes.as_slice(), &launch, outside)
        }
        Command::Link {
            output,
            inputs,
            entry,
        } => link(
            alloc,
            output.as_str(),
            inputs.as_slice(),
            entry.as_str(),
            outside,
        ),
    }
}
