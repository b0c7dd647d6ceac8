ghost use Rattle.std.specs.Prelude.{IfOk, None};
ghost use Rattle.nv_translate.specs.Made.{AreMade, Made};
ghost use Rattle.nv_translate.specs.Translated.{Translated};

use crate::laws::images_are_translated;
use elf_image::Image;
use nv_values::{ClassName, MethodBytes};
use std::alloc::Global;
use translate_program::{Built, NamedFile, NoMemory};

/// Translates a program to class files.
///
/// The main class has the name `name`. The classes of code have this name with `_0` and on, those of data with `_D0` and on. The code of
/// each span's method has at most `method_bytes` bytes.
///
/// These classes link, each method of theirs is typed, and they run as the program that was translated: they make the same calls of the
/// system, with the same bytes, and end in the same way, for all answers of the system and every bound.
///
/// # Errors
/// Out of memory for the classes.
pub fn translate(
    alloc: Global,
    image: &Image,
    name: &ClassName,
    method_bytes: MethodBytes,
) -> Result<Built, NoMemory>
    ensures translated { IfOk result (λ built. Translated image.now name.now built.files.items) }
    ensures made { IfOk result (Made image.now name.now method_bytes) }
{
    images_are_translated(image);
    name.laws();
    method_bytes.laws();
    translate_program::translate(alloc, image, name, method_bytes)
}

/// Translates a program to class files, as `translate` does, and gives these files alone, in less memory: where their blocks are is not
/// told, and the image is let go before its code is made.
///
/// # Errors
/// Out of memory for the classes.
pub fn translate_files(
    alloc: Global,
    image: Image,
    name: &ClassName,
    method_bytes: MethodBytes,
) -> Result<Vec<NamedFile>, NoMemory>
    ensures translated { IfOk result (λ files. Translated image name.now files.items) }
    ensures made { IfOk result (λ files. AreMade None image name.now method_bytes files.items) }
{
    images_are_translated(&image);
    name.laws();
    method_bytes.laws();
    translate_program::translate_files(alloc, image, name, method_bytes)
}
