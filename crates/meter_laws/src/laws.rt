//! What holds of guards. Each call here does nothing: its contract is the law.

ghost use Rattle.meter_laws.specs.Laws.{CountedCodeCountsNothing, CountedCodeEnds, CountedCodeIsPaid, CountedCodeWritesTheMeter, GuardsCountNothing, GuardsEndTheRun, GuardsKeepTheState, GuardsStopSpent, GuardsTakeTurnsOff, GuardsWriteTheMeter};

use emit_simulation_laws::laws::code_is_paths;

/// From where the fields hold a guest's state the guard of a unit comes to its end, with the unit's turns taken off,
/// where so many are left; and the fields still hold the state. If fewer are left, it ends the run in the fault of a
/// spent meter at its address, and until then fields and arrays are as they were. Either takes at most 12 turns.
pub fn guards_take_turns_off()
    ensures enough { GuardsTakeTurnsOff }
    ensures kept { GuardsKeepTheState }
    ensures too_few { GuardsEndTheRun }
    ensures stops { GuardsStopSpent }
{
    code_is_paths();
}

/// So does code that takes off a number of turns that is known.
pub fn counted_code_is_paid()
    ensures enough { CountedCodeIsPaid }
    ensures too_few { CountedCodeEnds }
{}

/// A guard reads no array and no text, and enters no method; and it writes no field but the meter.
pub fn guards_count_nothing()
    ensures counts { GuardsCountNothing }
    ensures writes { GuardsWriteTheMeter }
{}

/// Nor does code that takes off a number of turns that is known.
pub fn counted_code_counts_nothing()
    ensures counts { CountedCodeCountsNothing }
    ensures writes { CountedCodeWritesTheMeter }
{}
