//! What the code of pieces follows. Each call here does nothing: its contract is the law.

ghost use Rattle.emit_instructions_laws.specs.Units.{AllFollow};
ghost use Rattle.emit_instructions_laws.specs.Pieces.{AllPiecesFollow};

use crate::unit_laws::units_are_followed;
use block_builder::instructions_keep_to_their_registers;
use emit_simulation_laws::laws::code_is_paths;
use emit_simulation_laws::unit_laws::{
    gained_is_membership, is_in_is_membership, needed_is_known, units_are_lawful,
};

/// The code of a piece, over local variables, follows the turns of its units, all but the last of which are Plain.
pub fn pieces_are_followed()
    ensures { AllFollow → AllPiecesFollow }
{
    code_is_paths();
    instructions_keep_to_their_registers();
    gained_is_membership();
    is_in_is_membership();
    needed_is_known();
    units_are_lawful();
    units_are_followed();
}
