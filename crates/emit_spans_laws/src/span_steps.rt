//! What the method of a span does unit by unit. Each call here does nothing: its contract is the law.

ghost use Rattle.emit_spans_laws.specs.InPieces.{UnitsStandInPieces};
ghost use Rattle.emit_spans_laws.specs.Following.{FetchingIsSpared, InnerUnitsAreFollowed, LastUnitsAreFollowed, PiecesAreEntered, UnitsAreFollowedBehindFronts, WordsAloneAreFollowed};

use block_builder::instructions_keep_to_their_registers;
use emit_instructions_laws::laws as emitted;
use emit_simulation_laws::laws::code_is_paths;
use emit_simulation_laws::unit_laws::{
    gained_is_membership, is_in_is_membership, needed_is_known, units_are_lawful,
};
use emit_spans::laws::pieces_are_of_blocks;

/// If no piece begins with a word, the code of its unit lies there, over the fields of the registers. If it follows the unit's turns, so do
/// the classes, to where they go on. In a span with a meter it lies after its guard.
pub fn words_alone_are_followed()
    ensures plain { WordsAloneAreFollowed }
    ensures behind_fronts { UnitsAreFollowedBehindFronts }
{
    code_is_paths();
    units_are_lawful();
    needed_is_known();
    emitted::units_are_followed();
}

/// From the code of the word with which a piece begins the classes come to the piece's first unit. What they do until
/// then weighs nothing where moves of values weigh nothing. It takes at most 62 turns.
pub fn pieces_are_entered()
    ensures comes { PiecesAreEntered }
    ensures spared { FetchingIsSpared }
{
    code_is_paths();
    instructions_keep_to_their_registers();
    units_are_lawful();
    needed_is_known();
    pieces_are_of_blocks();
    emitted::units_are_followed();
    emitted::pieces_are_followed();
}

/// At a unit of a piece the unit's code lies, over local variables, and finds known what it reads. No piece begins with a word in the middle of
/// another one.
pub fn units_stand_in_pieces()
    ensures { UnitsStandInPieces }
{
    code_is_paths();
    instructions_keep_to_their_registers();
    gained_is_membership();
    is_in_is_membership();
    units_are_lawful();
    needed_is_known();
    pieces_are_of_blocks();
    emitted::units_are_followed();
    emitted::pieces_are_followed();
}

/// A unit of a piece that another one follows is Plain. If its code follows its turn, the classes come to the next unit.
pub fn units_in_pieces_are_followed()
    ensures { InnerUnitsAreFollowed }
{
    code_is_paths();
    instructions_keep_to_their_registers();
    gained_is_membership();
    is_in_is_membership();
    units_are_lawful();
    needed_is_known();
    pieces_are_of_blocks();
    emitted::units_are_followed();
    emitted::pieces_are_followed();
}

/// If the code of the last unit of a piece follows the unit's turns, so do the classes, to where they go on.
pub fn last_units_in_pieces_are_followed()
    ensures { LastUnitsAreFollowed }
{
    code_is_paths();
    instructions_keep_to_their_registers();
    gained_is_membership();
    is_in_is_membership();
    units_are_lawful();
    needed_is_known();
    pieces_are_of_blocks();
    emitted::units_are_followed();
    emitted::pieces_are_followed();
}
