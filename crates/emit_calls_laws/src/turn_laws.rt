//! What is held where the classes call the system, turn by turn. Each call here does nothing: its contract is the law.

ghost use Rattle.emit_calls_laws.specs.Turning.{MeteredTurnsHoldAtCalls, TurnsHoldAtCalls};
ghost use Rattle.emit_calls_laws.specs.Units.{UnitsHoldAtCalls};

use delay_slots::{unit_is_its_steps, unit_leads_on};
use emit_instructions_laws::laws::units_are_followed;
use emit_metered_laws::field_laws::{code_writes_the_layout, spans_leave_other_fields};
use emit_paths_laws::laws::{code_is_a_path, fields_are_left};
use emit_program_laws::choice_passes::{
    choosers_lead_to_words, guests_fault_outside_code, spans_come_back, strays_end,
};
use emit_simulation_laws::laws::code_is_paths;
use emit_spans_laws::laws::fields_hold_all;
use emit_spans_laws::span_steps::{
    last_units_in_pieces_are_followed, pieces_are_entered, units_in_pieces_are_followed,
    units_stand_in_pieces, words_alone_are_followed,
};
use emit_spans_laws::{pcs_are_words, units_make_steps};
use meter_laws::laws::guards_take_turns_off;
use trampoline_laws::laws::{
    classes_stand, spans_are_apart, spans_are_numbered, spans_lie_in_classes,
};

/// If the last of a unit's turns calls the system, the unit's code comes to a call, over whatever local variables, and holds there the state in
/// which that turn is made: alone, or in the delay slot of a branch.
pub fn units_hold_at_calls()
    ensures { UnitsHoldAtCalls }
{
    code_is_paths();
}

/// From each state of rest the guest moves on, and the classes come to rest beside it; or it calls the system, and so do the classes, and they
/// hold there HI, LO, the link of LL and the memory of the guest's state; or it ends.
pub fn turns_hold_at_calls()
    ensures { TurnsHoldAtCalls }
{
    units_hold_at_calls();
    units_are_followed();
    unit_is_its_steps();
    unit_leads_on();
    pcs_are_words();
    words_alone_are_followed();
    pieces_are_entered();
    units_stand_in_pieces();
    units_in_pieces_are_followed();
    last_units_in_pieces_are_followed();
    classes_stand();
    spans_lie_in_classes();
    spans_are_numbered();
    spans_are_apart();
    choosers_lead_to_words();
    guests_fault_outside_code();
    spans_come_back();
    strays_end();
}

/// So it is with a meter, where they hold the registers too, and the turns that are left.
pub fn metered_turns_hold_at_calls()
    ensures { MeteredTurnsHoldAtCalls }
{
    units_hold_at_calls();
    code_writes_the_layout();
    unit_is_its_steps();
    unit_leads_on();
    units_make_steps();
    pcs_are_words();
    guards_take_turns_off();
    words_alone_are_followed();
    spans_leave_other_fields();
    code_is_a_path();
    fields_are_left();
    classes_stand();
    spans_lie_in_classes();
    spans_are_numbered();
    spans_are_apart();
    choosers_lead_to_words();
    strays_end();
    guests_fault_outside_code();
    spans_come_back();
    fields_hold_all();
}
