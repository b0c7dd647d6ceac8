//! That a translation is warm. The call here does nothing: its contract is the law.

ghost use Rattle.nv_translate.specs.Images.{OfTranslations};
ghost use Rattle.nv_translate.specs.Warm.{IsWarm};

use crate::translated_loading::{others_do_not_load, translations_load};
use crate::translated_methods::translations_stand;
use emit_program_laws::laws::translated_programs_come_to_marks;
use emit_program_laws::{
    images_are_pages, lines_of_pieces_read_and_write_registers_once, pieces_are_made,
    pieces_follow, spans_are_entered, spans_are_numbered, stretches_are_of_pieces,
    units_are_lawful,
};
use translate_classes_laws::named_code::{helpers_name_well, spans_name_well};

/// The blocks of a translation's layout are the pieces of its code, each once and in the order of their addresses. What runs of each is its code over
/// local variables: from the address of its first word the span's method goes there; from there the classes follow the program through the piece, to
/// the next block or out of the span, while nothing else runs; and the code reads and writes the field of each register at most once. Wherever the
/// program comes to the first word of a block between units, the classes come to its code, and what they have there matches the program's state.
pub fn translations_are_warm()
    ensures { OfTranslations IsWarm }
{
    images_are_pages();
    others_do_not_load();
    translations_load();
    translations_stand();
    units_are_lawful();
    helpers_name_well();
    spans_name_well();
    spans_are_entered();
    pieces_follow();
    pieces_are_made();
    stretches_are_of_pieces();
    lines_of_pieces_read_and_write_registers_once();
    spans_are_numbered();
    translated_programs_come_to_marks();
}
