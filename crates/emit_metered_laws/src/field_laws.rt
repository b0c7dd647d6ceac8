//! Emitted code writes no fields but the layout's. Each call here does nothing: its contract is the law.

ghost use Rattle.emit_metered_laws.specs.Leaving.{HelpersLeaveOthers, PiecesLeaveOthers, SpanPiecesLeaveOthers, UnitsBehindFrontsLeaveOthers, UnitsLeaveOthers, WordsLeaveOthers};
ghost use Rattle.emit_metered_laws.specs.Writing.{HelpersWriteLayout, NamedCodeWritesItsFields, PartsWriteLayout, PiecesWriteLayout, SpansWriteLayout, UnitsWriteLayout};

use emit_instructions_laws::laws::{pieces_are_followed, units_are_followed};
use emit_methods_laws::named_code::{helpers_name_well, spans_name_well, units_name_well};
use emit_paths_laws::laws::{calls_are_paths, fields_are_left};
use emit_spans_laws::laws::{pieces_follow, words_follow};
use emit_spans_laws::units_are_lawful;

/// The code of helpers, units, pieces and spans has no write of a field but the layout's, and with a meter that of spans none but its field
/// too. Nor has any code that names only what is there, as that of all methods that are emitted.
pub fn code_writes_the_layout()
    ensures named { NamedCodeWritesItsFields }
    ensures helpers { HelpersWriteLayout }
    ensures units { UnitsWriteLayout }
    ensures pieces { PiecesWriteLayout }
    ensures parts { PartsWriteLayout }
    ensures spans { SpansWriteLayout }
{
    helpers_name_well();
    units_name_well();
    spans_name_well();
}

/// A call of a helper that returns leaves each other field alone.
pub fn helpers_leave_other_fields()
    ensures { HelpersLeaveOthers }
{
    calls_are_paths();
    code_writes_the_layout();
    fields_are_left();
}

/// While the code of a unit or a piece follows the guest, each other field is left alone, a call of the system included.
pub fn units_leave_other_fields()
    ensures units { UnitsLeaveOthers }
    ensures pieces { PiecesLeaveOthers }
{
    code_writes_the_layout();
    units_are_followed();
    pieces_are_followed();
}

/// So it is in the method of a span, with a meter after the guards.
pub fn spans_leave_other_fields()
    ensures words { WordsLeaveOthers }
    ensures behind_fronts { UnitsBehindFrontsLeaveOthers }
    ensures pieces { SpanPiecesLeaveOthers }
{
    code_writes_the_layout();
    units_are_lawful();
    words_follow();
    pieces_follow();
}
