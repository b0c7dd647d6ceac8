//! How a translation with a meter stops. Each call here does nothing: its contract is the law.

ghost use Rattle.std.specs.Prelude.{◌≡◌, ℕ, List, [], Some};
ghost use Rattle.nv_values.specs.Names.{Text};
ghost use Rattle.elf_definition.specs.Start.{Source};
ghost use Rattle.class_definition.specs.Linking.{program_of};
ghost use Rattle.translate_program.specs.declared.built.Built.{Built};
ghost use Rattle.nv_translate.specs.Images.{OfMeteredTranslations};
ghost use Rattle.nv_translate.specs.Linked.{IsLinkedBy};
ghost use Rattle.nv_translate.specs.Metered.{EndsByItsMeter, StopsByItsMeter};

use crate::translated_loading::{others_do_not_load, translations_load};
use crate::translated_methods::translations_stand;
use emit_metered_laws::laws::metered_programs_follow;
use emit_program_laws::images_are_pages;

/// The classes of a translation with a meter run as the program does, as far as its turns go, and then stop: over every list of answers, and over
/// the system from each of its states.
pub fn metered_translations_stop()
    ensures stops { OfMeteredTranslations (λ source turns classes. StopsByItsMeter source turns (program_of classes)) }
    ensures ends { OfMeteredTranslations (λ source turns classes. EndsByItsMeter source turns classes) }
{
    images_are_pages();
    others_do_not_load();
    translations_load();
    translations_stand();
    metered_programs_follow();
}

/// Its layout has no blocks: each word is alone, and before it its turns are taken off the meter.
pub fn metered_translations_have_no_blocks()
    ensures { (source : Source) (name : Text) (method_bytes turns : ℕ) (built : Built)
        → IsLinkedBy (Some turns) source name method_bytes built
        → built.layout.blocks.items ≡ [] }
{}
