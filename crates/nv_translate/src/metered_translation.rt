ghost use Rattle.std.specs.Prelude.{IfOk, Some};
ghost use Rattle.nv_translate.specs.Made.{AreMade, MadeMetered};
ghost use Rattle.nv_translate.specs.Metered.{TranslatedMetered};

use crate::laws::metered_images_are_translated;
use elf_image::Image;
use nv_values::{ClassName, MeterTurns, MethodBytes};
use std::alloc::Global;
use translate_program::{Built, NamedFile, NoMemory};

/// Translates a program to class files that keep a meter.
///
/// The files are named as `translate` names them. The classes run as the program that was translated until it has made `turns` instructions, a
/// branch and what is in its slot each for one. If it is over by then, they end as it does. If it is not, they end in the fault of a
/// spent meter, at the instruction that it would make next, after the same calls of the system: for all answers of the system.
///
/// # Errors
/// Out of memory for the classes.
pub fn translate_metered(
    alloc: Global,
    image: &Image,
    name: &ClassName,
    method_bytes: MethodBytes,
    turns: MeterTurns,
) -> Result<Built, NoMemory>
    ensures translated { IfOk result (λ built.
        TranslatedMetered image.now name.now turns built.files.items) }
    ensures made { IfOk result (MadeMetered image.now name.now method_bytes turns) }
{
    metered_images_are_translated(image);
    name.laws();
    method_bytes.laws();
    let _count = turns.get();
    translate_program::translate_metered(alloc, image, name, method_bytes, turns)
}

/// Translates a program to class files that keep a meter, as `translate_metered` does, and gives these files alone, in less memory: the image
/// is let go before its code is made.
///
/// # Errors
/// Out of memory for the classes.
pub fn translate_files_metered(
    alloc: Global,
    image: Image,
    name: &ClassName,
    method_bytes: MethodBytes,
    turns: MeterTurns,
) -> Result<Vec<NamedFile>, NoMemory>
    ensures translated { IfOk result (λ files. TranslatedMetered image name.now turns files.items) }
    ensures made { IfOk result (λ files.
        AreMade (Some turns) image name.now method_bytes files.items) }
{
    metered_images_are_translated(&image);
    name.laws();
    method_bytes.laws();
    let _count = turns.get();
    translate_program::translate_files_metered(alloc, image, name, method_bytes, turns)
}
