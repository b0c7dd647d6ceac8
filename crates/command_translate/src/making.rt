ghost use Rattle.std.specs.Prelude.{◌≤◌, false};
ghost use Rattle.nv_translate.specs.Made.{AreMade};
ghost use Rattle.command_deeds.specs.Ends.{Comes, ended};
ghost use Rattle.command_deeds.specs.World.{SameParts, Writes, output_seen, seen};
ghost use Rattle.command_translate.specs.Make.{IsDueOfMake, made_lines};

use crate::alone_runs::{run_image, run_translated};
use crate::made_file;
use crate::made_laws::{made_files_are_accepted, made_programs_end};
use crate::statuses::Statuses;
use command_deeds::{Done, Ending, Outside, decimal_long, write_pieces};
use command_guest::{DEFAULT_PAGES, image_of_file};
use itoa::Buffer;
use nv_outside::{Failed, Shelf, Sink, Source};
use nv_values::MethodBytes;
use std::alloc::Global;

/// Makes a program of `count` blocks, runs it in the reference machine and its classes in the class machine, and writes
/// how many words it has and the statuses of both runs. Nothing is stored. `moment` is the time in seconds since 1970.
pub fn make<H: Shelf, S: Source, O: Sink, E: Sink>(
    alloc: Global,
    count: u32,
    method_bytes: MethodBytes,
    moment: u64,
    outside: &mut Outside<'_, H, S, O, E>,
) -> Result<Done, Ending>
    requires count { count ≤ 65536 }
    ensures same { SameParts outside.old outside.new }
    ensures comes { Comes false (λ w. IsDueOfMake AreMade count method_bytes moment)
        (seen H.Shelf S.Source O.Sink E.Sink outside.old)
        (seen H.Shelf S.Source O.Sink E.Sink outside.new) (ended result) }
{
    made_files_are_accepted();
    made_programs_end();
    let file = made_file(alloc, count)?;
    let image = image_of_file(alloc, file.as_slice(), DEFAULT_PAGES)?;
    let steps = 5 * u64::from(count) + 4;
    let interp_end = run_image(alloc, &image, steps, moment)?;
    let classes_end = run_translated(alloc, image, method_bytes, steps, moment)?;
    let interp = interp_end.status();
    let classes = classes_end.status();
    write_lines(count, Statuses { interp, classes }, outside.out)?;
    Ok(Done::Good)
}

/// Writes how many words the program has, and these statuses. Takes no memory.
fn write_lines<O: Sink>(count: u32, statuses: Statuses, out: &mut O) -> Result<(), Failed>
    requires count { count ≤ 65536 }
    ensures writes { Writes (output_seen O.Sink out.old) (output_seen O.Sink out.new)
        (made_lines count statuses.interp statuses.classes) result }
{
    let (mut word_digits, mut interp_digits, mut class_digits) = (
        Buffer::new(),
        Buffer::new(),
        Buffer::new(),
    );
    let words = decimal_long(&mut word_digits, u64::from(6 * count + 3));
    let interp = decimal_long(&mut interp_digits, u64::from(statuses.interp));
    let classes = decimal_long(&mut class_digits, u64::from(statuses.classes));
    write_pieces(
        out,
        &[
            b"words ",
            words,
            b"\ninterp ",
            interp,
            b"\nclasses ",
            classes,
            b"\n",
        ],
    )
}
