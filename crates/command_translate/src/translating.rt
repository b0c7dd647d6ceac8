ghost use Rattle.std.specs.Prelude.{IfOk};
ghost use Rattle.nv_translate.specs.Made.{AreMade};
ghost use Rattle.command_words.specs.Limits.{ArePages};
ghost use Rattle.command_deeds.specs.Ends.{Ends};
ghost use Rattle.command_deeds.specs.World.{Writes, output_seen};
ghost use Rattle.command_translate.specs.Held.{AreTranslatedBy};
ghost use Rattle.command_translate.specs.Stores.{translation_line};
ghost use Rattle.command_translate.specs.Translate.{IsDueOfTranslate};

use crate::storing::store_files;
use command_deeds::{Done, Ending, Outside, decimal_long, write_pieces};
use command_guest::load_image;
use command_words::{Named, Pages};
use elf_image::Image;
use itoa::Buffer;
use nv_outside::{Failed, Shelf, Sink, Source};
use nv_translate::{NamedFile, NoMemory, need, translate_files, translate_files_metered};
use nv_values::{ClassName, MeterTurns, MethodBytes, RegionWords};
use std::alloc::Global;

/// Loads a program, translates it with a meter or without one, stores its classes under a name, and writes how many files they are and
/// how many words of a region they need.
pub fn translate<H: Shelf, S: Source, O: Sink, E: Sink>(
    alloc: Global,
    input: &Named,
    name: &ClassName,
    pages: Pages,
    method_bytes: MethodBytes,
    meter: Option<MeterTurns>,
    outside: &mut Outside<'_, H, S, O, E>,
) -> Result<Done, Ending>
    requires pages { ArePages pages }
    ensures ends { Ends H.Shelf S.Source O.Sink E.Sink
        (IsDueOfTranslate AreMade input.now name.now pages method_bytes meter)
        outside.old outside.new result }
{
    let image = load_image(alloc, input, pages, outside.shelf)?;
    let words = need(&image);
    let made = files_of(alloc, image, name, method_bytes, meter)?;
    let files = made.as_slice();
    store_files(files, outside.shelf)?;
    write_counts(files, words, outside.out)?;
    Ok(Done::Good)
}

/// The files of a translation of a program, with a meter or without one.
fn files_of(
    alloc: Global,
    image: Image,
    name: &ClassName,
    method_bytes: MethodBytes,
    meter: Option<MeterTurns>,
) -> Result<Vec<NamedFile>, NoMemory>
    ensures translated { IfOk result (λ files. AreTranslatedBy meter image name.now files.items) }
    ensures made { IfOk result (λ files. AreMade meter image name.now method_bytes files.items) }
{
    match meter {
        Some(turns) => translate_files_metered(alloc, image, name, method_bytes, turns),
        None => translate_files(alloc, image, name, method_bytes),
    }
}

/// Writes the line of the counts of files that need so many words. Takes no memory.
fn write_counts<O: Sink>(files: &[NamedFile], words: RegionWords, out: &mut O) -> Result<(), Failed>
    ensures writes { Writes (output_seen O.Sink out.old) (output_seen O.Sink out.new)
        (translation_line files.now words) result }
{
    let (mut file_digits, mut need_digits) = (Buffer::new(), Buffer::new());
    let count = decimal_long(&mut file_digits, files.len() as u64);
    let need = decimal_long(&mut need_digits, u64::from(words.get()));
    write_pieces(out, &[b"classes ", count, b" need ", need, b"\n"])
}
