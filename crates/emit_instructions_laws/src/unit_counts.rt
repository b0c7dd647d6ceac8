//! What the code of a unit counts against what the guest's steps count. Each call here does nothing: its contract is the law.

ghost use Rattle.emit_instructions_laws.specs.Counting.{UnitsAreCounted};
ghost use Rattle.emit_instructions_laws.specs.Steps.{UnitsReadAsTold, UnitsCrossSpans, UnitsPassSlots, UnitsLeadToWords};

use crate::laws as emitted;
use crate::unit_laws::slots_are_passed_over;
use mem_helpers_laws::load_laws::loads_read_one_word;
use mem_helpers_laws::store_laws::stores_read_at_most_one_word;

/// The code of a unit follows the unit's turns, and counts no more reads of words than they make, with the methods that it calls. A slot
/// that is passed over counts nothing.
pub fn units_are_counted()
    ensures { UnitsAreCounted }
{
    loads_read_one_word();
    stores_read_at_most_one_word();
    slots_are_passed_over();
    emitted::units_are_followed();
}

/// The turns of a unit are steps of the guest: they read as many words as is told of the unit, one that begins with JR or JALR crosses
/// spans, and the second of two is made in the delay slot.
pub fn units_make_steps()
    ensures reads { UnitsReadAsTold }
    ensures crossings { UnitsCrossSpans }
    ensures slots { UnitsPassSlots }
{}

/// If the registers hold words, each address to which a unit leads is a word, whatever the answer.
pub fn pcs_are_words()
    ensures { UnitsLeadToWords }
{}
