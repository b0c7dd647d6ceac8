//! How a translation goes on where the host enters it. The call here does nothing: its contract is the law.

ghost use Rattle.nv_translate.specs.Translated.{GoesOnAlike};
ghost use Rattle.nv_translate.specs.Images.{OfTranslations};

use crate::translated_methods::translations_stand;
use emit_program_laws::entered_laws::entered_programs_go_on;

/// If the host has put a state of the program into the fields of the main class and the arrays, between two instructions, and enters its
/// method `choose()V`, the classes run as the program does from there: for every list of answers and every bound, both ways.
pub fn translations_go_on()
    ensures { OfTranslations (λ source layout program. GoesOnAlike source program) }
{
    translations_stand();
    entered_programs_go_on();
}
