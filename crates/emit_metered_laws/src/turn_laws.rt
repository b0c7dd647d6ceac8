//! How the classes of a program with a meter follow the guest. Each call here does nothing: its contract is the law.

ghost use Rattle.emit_metered_laws.specs.Spending.{MetersArePaidOrSpent};
ghost use Rattle.emit_metered_laws.specs.Turning.{MeteredTurnsAreFollowed};

use crate::field_laws::spans_leave_other_fields;
use delay_slots::{unit_is_its_steps, unit_leads_on};
use emit_paths_laws::laws::{code_is_a_path, fields_are_left};
use emit_program_laws::choice_passes::{
    choosers_lead_to_words, guests_fault_outside_code, spans_come_back, strays_end,
};
use emit_spans_laws::laws::fields_hold_all;
use emit_spans_laws::span_steps::words_alone_are_followed;
use emit_spans_laws::{pcs_are_words, units_make_steps};
use meter_laws::laws::guards_take_turns_off;
use trampoline_laws::laws::{
    classes_stand, spans_are_apart, spans_are_numbered, spans_lie_in_classes,
};

/// From each state of rest, after at most 200 turns, the classes follow turns of the guest, and come to rest where these are taken off the meter; or
/// the meter has not enough for the guest's next unit, and they end as a spent meter does, and hold the guest's state until then.
pub fn meters_are_paid_or_spent()
    ensures { MetersArePaidOrSpent }
{
    unit_is_its_steps();
    unit_leads_on();
    units_make_steps();
    pcs_are_words();
    guards_take_turns_off();
    words_alone_are_followed();
    spans_leave_other_fields();
    code_is_a_path();
    fields_are_left();
    classes_stand();
    spans_lie_in_classes();
    spans_are_numbered();
    spans_are_apart();
    choosers_lead_to_words();
    strays_end();
    guests_fault_outside_code();
    spans_come_back();
    fields_hold_all();
}

/// From each state of rest the classes follow the guest's next turn, or its next two where the first leads into a delay
/// slot, within 1024 turns for one of the guest's, and come to rest where these are taken off the meter. If it has
/// not enough for them, they end as a spent meter does. That fault is at the pc, or in a delay slot at the address of
/// its branch.
pub fn metered_turns_are_followed()
    ensures { MeteredTurnsAreFollowed }
{
    meters_are_paid_or_spent();
}
