//! What the method of a span does. Each call here does nothing: its contract is the law.

ghost use Rattle.emit_spans_laws.specs.Counting.{CountsSpareMoves, PartsWeighTheirUnits};
ghost use Rattle.emit_spans_laws.specs.Entering.{EnteringOnlySwitches, SpansAreEntered};
ghost use Rattle.emit_spans_laws.specs.Made.{PiecesAreMade};
ghost use Rattle.emit_spans_laws.specs.Registers.{StretchesAreOfPieces};
ghost use Rattle.emit_spans_laws.specs.Resuming.{FieldsHoldAll, ReturnsGiveBack};
ghost use Rattle.emit_spans_laws.specs.Spans.{SpanPiecesFollow, SpanWordsFollow, UnitsFollowBehindFronts};

use block_builder::instructions_keep_to_their_registers;
use delay_slots::{unit_is_its_steps, unit_leads_on};
use emit_instructions_laws::laws as emitted;
use emit_simulation_laws::laws::code_is_paths;
use emit_simulation_laws::unit_laws::{needed_is_known, units_are_lawful};
use emit_spans::laws::pieces_are_of_blocks;

/// If field pc has the address of a word of the span, the method goes from its beginning to the code of that word;
/// where it has another address, to a return. Either takes at most 14 turns, with one switch and nothing else that is
/// counted.
pub fn spans_are_entered()
    ensures goes { SpansAreEntered }
    ensures counts { EnteringOnlySwitches }
{
    code_is_paths();
}

/// From the code of a word with which no piece begins the classes follow the turns of the word's unit, and come to the code of the word at
/// which the guest then is; or to a return, where the unit goes as a register says, or out of the span. In a span with a meter they do
/// so after the guard.
pub fn words_follow()
    ensures plain { SpanWordsFollow }
    ensures behind_fronts { UnitsFollowBehindFronts }
{
    code_is_paths();
    units_are_lawful();
    needed_is_known();
    emitted::units_are_followed();
}

/// From the code of a word with which a piece begins the classes follow the turns of all units of the piece, and come
/// to the code of the word at which the guest then is; or to a return, where the last unit goes as a register says,
/// or out of the span. The classes make at least as many turns as the guest, and at most 264 for each of its turns.
pub fn pieces_follow()
    ensures { SpanPiecesFollow }
{
    code_is_paths();
    instructions_keep_to_their_registers();
    units_are_lawful();
    needed_is_known();
    pieces_are_of_blocks();
    emitted::units_are_followed();
    emitted::pieces_are_followed();
}

/// The code of a word weighs what the code of its unit and what is in front of it weigh, with the methods that it calls, and that of a piece what the codes of its units
/// weigh, by each weight that what moves values, branches and returns has none of. Each weight that is counted of the classes is such a one.
pub fn parts_weigh_their_units()
    ensures parts { PartsWeighTheirUnits }
    ensures spared { CountsSpareMoves }
{}

/// The offsets that are told of a piece's warm code are those of the code of the word with which the piece begins.
pub fn stretches_are_of_pieces()
    ensures { StretchesAreOfPieces }
{}

/// The guest machine makes the turns of a piece, and is between units where they lead.
pub fn pieces_are_made()
    ensures { PiecesAreMade }
{
    instructions_keep_to_their_registers();
    unit_is_its_steps();
    unit_leads_on();
    units_are_lawful();
    pieces_are_of_blocks();
}

/// A return gives back to the frame below.
pub fn returns_give_back()
    ensures { ReturnsGiveBack }
{}

/// Between the codes of words the state is held in fields and arrays alone.
pub fn fields_hold_all()
    ensures { FieldsHoldAll }
{}
