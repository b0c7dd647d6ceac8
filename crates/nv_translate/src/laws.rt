//! That the classes of a translation do what the program does. Each call here does nothing: its contract is the law.

ghost use Rattle.std.specs.Prelude.{ℕ, ◌^◌, ◌<◌, ◌≤◌, Some};
ghost use Rattle.run_definition.specs.Words.{IsWord};
ghost use Rattle.nv_values.specs.Names.{IsClassName, Text};
ghost use Rattle.translate_program.specs.declared.built.Built.{Built};
ghost use Rattle.translate_program.specs.Translation.{IsTranslation, IsTranslationBy};
ghost use Rattle.nv_translate.specs.Images.{IsImage, OfTranslations};
ghost use Rattle.nv_translate.specs.Made.{Made, MadeMetered};
ghost use Rattle.nv_translate.specs.Translated.{RunsAlike};

use crate::accepted_translations::{translations_are_accepted, translations_are_sets};
use crate::called_translations::{metered_translations_hold_at_calls, translations_hold_at_calls};
use crate::counted_translations::translations_count_alike;
use crate::ended_translations::runs_end_alike;
use crate::entered_translations::translations_go_on;
use crate::linked_translations::translations_link;
use crate::repeated_translations::translations_run_again;
use crate::sized_translations::{translated_spans_are_least, translated_spans_keep_to_the_limit};
use crate::sliced_translations::metered_translations_run_in_slices;
use crate::stopped_translations::{metered_translations_have_no_blocks, metered_translations_stop};
use crate::translated_loading::{others_do_not_load, translations_load};
use crate::translated_methods::translations_stand;
use crate::warm_translations::translations_are_warm;
use elf_image::Image;
use emit_program_laws::images_are_pages;
use emit_program_laws::laws::translated_programs_run_alike;

/// The classes of a translation run as the program does: for every list of answers of the system and every bound, both
/// ways. For n turns of the program the classes have the allowance for n, and in m turns they do no more than the
/// program in m of its own.
pub fn translations_run_alike()
    ensures { OfTranslations (λ source layout program. RunsAlike source program) }
{
    images_are_pages();
    others_do_not_load();
    translations_load();
    translations_stand();
    translated_programs_run_alike();
}

/// Every translation of an image is so: its classes are accepted, and run as the image's program does; they count no more than it, and are warm.
pub fn images_are_translated(image: &Image)
    ensures { (name : Text) (method_bytes : ℕ) (built : Built)
        → IsClassName name → 4096 ≤ method_bytes
        → IsTranslation image.now name method_bytes built
        → Made image.now name method_bytes built }
{
    is_image(image);
    translations_link();
    translations_are_accepted();
    translations_are_sets();
    translated_spans_keep_to_the_limit();
    translated_spans_are_least();
    translations_run_alike();
    runs_end_alike();
    translations_run_again();
    translations_go_on();
    translations_hold_at_calls();
    translations_count_alike();
    translations_are_warm();
}

/// So is every translation of an image with a meter: its classes are accepted, run as the image's program does, stop by the meter, and go on in slices.
pub fn metered_images_are_translated(image: &Image)
    ensures { (name : Text) (method_bytes turns : ℕ) (built : Built)
        → IsClassName name → 4096 ≤ method_bytes → turns < 2 ^ 31
        → IsTranslationBy (Some turns) image.now name method_bytes built
        → MadeMetered image.now name method_bytes turns built }
{
    is_image(image);
    translations_link();
    translations_are_accepted();
    translations_are_sets();
    translated_spans_keep_to_the_limit();
    translated_spans_are_least();
    metered_translations_have_no_blocks();
    metered_translations_stop();
    metered_translations_run_in_slices();
    metered_translations_hold_at_calls();
}

// It does nothing: an image is so by its laws.
fn is_image(image: &Image)
    ensures { IsImage image.now }
{
    image.laws();
    let _mapped = image.mapped();
    is_word(image.entry());
}

// It does nothing: an address that code has at hand is a word.
fn is_word(address: u32)
    ensures { IsWord address }
{}
