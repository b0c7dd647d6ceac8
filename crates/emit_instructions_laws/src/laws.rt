//! What emitted code follows. Each call here does nothing: its contract is the law.

ghost use Rattle.emit_instructions_laws.specs.Units.{AllFollow, AllUnitsFollow};
ghost use Rattle.emit_instructions_laws.specs.Pieces.{AllPiecesFollow};

use crate::access_laws::{
    conditional_stores_are_followed, linked_loads_are_followed, loads_are_followed,
    products_are_followed, stores_are_followed,
};
use crate::instruction_laws::{
    arithmetic_immediates_are_followed, arithmetic_is_followed, breaks_are_followed,
    load_upper_is_followed, logical_immediates_are_followed, moves_from_are_followed,
    moves_to_are_followed, reserved_words_are_followed, shifts_are_followed, syncs_are_followed,
    trap_immediates_are_followed, traps_are_followed, variable_shifts_are_followed,
};
use crate::{piece_laws as pieces, unit_laws as units};

/// The code of every instruction that can be alone or in a delay slot follows it, wherever it lies and however it
/// reaches registers. It takes at most 132 turns, below fewer than 62 other frames.
pub fn instructions_are_followed()
    ensures { AllFollow }
{
    arithmetic_is_followed();
    shifts_are_followed();
    variable_shifts_are_followed();
    arithmetic_immediates_are_followed();
    logical_immediates_are_followed();
    load_upper_is_followed();
    moves_from_are_followed();
    moves_to_are_followed();
    traps_are_followed();
    trap_immediates_are_followed();
    breaks_are_followed();
    reserved_words_are_followed();
    syncs_are_followed();
    loads_are_followed();
    linked_loads_are_followed();
    stores_are_followed();
    conditional_stores_are_followed();
    products_are_followed();
    units::calls_are_followed();
}

/// The code of every unit follows the unit's turns.
pub fn units_are_followed()
    ensures { AllUnitsFollow }
{
    instructions_are_followed();
    units::units_are_followed();
}

/// The code of every piece, over local variables, follows the turns of the piece's units.
pub fn pieces_are_followed()
    ensures { AllPiecesFollow }
{
    instructions_are_followed();
    pieces::pieces_are_followed();
}
