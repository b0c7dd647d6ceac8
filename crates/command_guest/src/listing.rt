ghost use Rattle.elf_definition.specs.Start.{image_of};
ghost use Rattle.command_deeds.specs.Ends.{Ends};
ghost use Rattle.command_deeds.specs.World.{Prints, Writes, output_seen};
ghost use Rattle.command_guest.specs.Listing.{IsDueOfList, columns, listing_line_at, run_lines, runs_lines, word_line};

use crate::imaging::{DEFAULT_PAGES, load_image};
use command_deeds::{Done, Ending, Outside, Stop, hexadecimal, write_pieces};
use command_words::Named;
use elf_image::Image;
use elf_reader::Range;
use mips_decode::{decode, print_inst};
use nv_outside::{Failed, Shelf, Sink, Source};
use std::alloc::Global;

/// Loads a program, and writes a line for each word of its code.
pub fn list<H: Shelf, S: Source, O: Sink, E: Sink>(
    alloc: Global,
    input: &Named,
    outside: &mut Outside<'_, H, S, O, E>,
) -> Result<Done, Ending>
    ensures ends { Ends H.Shelf S.Source O.Sink E.Sink (IsDueOfList input.now)
        outside.old outside.new result }
{
    let image = load_image(alloc, input, DEFAULT_PAGES, outside.shelf)?;
    let runs = image.ranges();
    write_runs(alloc, &image, runs, outside.out)?;
    Ok(Done::Good)
}

/// Writes the lines of runs of an image's code.
fn write_runs<O: Sink>(
    alloc: Global,
    image: &Image,
    runs: &[Range],
    out: &mut O,
) -> Result<(), Stop>
    ensures prints { Prints (output_seen O.Sink out.old) (output_seen O.Sink out.new)
        (runs_lines ((image_of image.now).code) runs.now) result }
{
    for run in runs {
        write_run(alloc, image, *run, out)?;
    }
    Ok(())
}

/// Writes the lines of the words of a run.
fn write_run<O: Sink>(alloc: Global, image: &Image, run: Range, out: &mut O) -> Result<(), Stop>
    ensures prints { Prints (output_seen O.Sink out.old) (output_seen O.Sink out.new)
        (run_lines ((image_of image.now).code) run.first run.words) result }
{
    let mut at = run.first;
    for _ in 0..run.words {
        write_at(alloc, image, at, out)?;
        at = at.wrapping_add(4);
    }
    Ok(())
}

/// Writes the line of an address of the code.
fn write_at<O: Sink>(alloc: Global, image: &Image, at: u32, out: &mut O) -> Result<(), Stop>
    ensures prints { Prints (output_seen O.Sink out.old) (output_seen O.Sink out.new)
        (listing_line_at ((image_of image.now).code) at) result }
{
    match image.word(at) {
        Some(word) => write_word(alloc, at, word, out),
        None => Ok(()),
    }
}

/// Writes the line of a word at an address.
fn write_word<O: Sink>(alloc: Global, at: u32, word: u32, out: &mut O) -> Result<(), Stop>
    ensures prints { Prints (output_seen O.Sink out.old) (output_seen O.Sink out.new)
        (word_line at word) result }
{
    let text = print_inst(alloc, &decode(word), at)?;
    write_columns(at, word, text.as_bytes(), out)?;
    Ok(())
}

/// Writes the line of a word at an address, given the text of its instruction. Takes no memory.
fn write_columns<O: Sink>(at: u32, word: u32, text: &[u8], out: &mut O) -> Result<(), Failed>
    ensures writes { Writes (output_seen O.Sink out.old) (output_seen O.Sink out.new)
        (columns at word text.now) result }
{
    let address = hexadecimal(at);
    let digits = hexadecimal(word);
    write_pieces(out, &[&address, b": ", &digits, b" ", text, b"\n"])
}
