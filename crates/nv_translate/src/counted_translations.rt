//! What the classes of a translation count. The call here does nothing: its contract is the law.

ghost use Rattle.nv_translate.specs.Counts.{CountsAlike};
ghost use Rattle.nv_translate.specs.Images.{OfTranslations};

use crate::translated_loading::{others_do_not_load, translations_load};
use crate::translated_methods::translations_stand;
use emit_program_laws::images_are_pages;
use emit_program_laws::laws::translated_programs_count_alike;

/// After their first call the classes of a translation read at most as many words of memory as the program makes accesses for which one is read,
/// and no character. They switch there, and enter spans of the layout in their whole run, at most once for each crossing of the program between
/// these, and once more: for every list of answers of the system and every number of turns.
pub fn translations_count_alike()
    ensures { OfTranslations CountsAlike }
{
    images_are_pages();
    others_do_not_load();
    translations_load();
    translations_stand();
    translated_programs_count_alike();
}
