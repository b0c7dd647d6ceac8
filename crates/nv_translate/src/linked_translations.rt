//! What links of a translation. Each call here does nothing: its contract is the law.

ghost use Rattle.std.specs.Prelude.{ℕ, Option};
ghost use Rattle.nv_values.specs.Names.{Text, IsClassName};
ghost use Rattle.elf_definition.specs.Start.{Source};
ghost use Rattle.translate_program.specs.declared.built.Built.{Built};
ghost use Rattle.translate_program.specs.Translation.{IsTranslationBy};
ghost use Rattle.nv_translate.specs.WholeCode.{HasWholeCode};
ghost use Rattle.nv_translate.specs.Linked.{IsLinkedBy};

use elf_image::Image;
use emit_program_laws::units_are_lawful;
use translate_classes_laws::named_code::names_are_meant;

/// The code of an image is whole: its file was accepted.
pub fn images_have_whole_code(image: &Image)
    ensures { HasWholeCode image.now }
{
    image.laws();
}

/// The classes of a translation, with a meter or without, of a program that was accepted are the program that they were
/// planned to be. It has the 38 fields of the main class with their types, one more with a meter, and the methods that
/// were planned and no other: each at its number, with its lines, its parameters, 16 operands and its local variables.
/// The texts of pages that the code names are those of the image.
pub fn translations_link()
    ensures { (meter : Option ℕ) (source : Source) (name : Text) (method_bytes : ℕ) (built : Built)
        → HasWholeCode source → IsClassName name
        → IsTranslationBy meter source name method_bytes built
        → IsLinkedBy meter source name method_bytes built }
{
    names_are_meant();
    units_are_lawful();
}
