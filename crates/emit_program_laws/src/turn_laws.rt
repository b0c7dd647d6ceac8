//! How the classes of a translated program follow the guest. Each call here does nothing: its contract is the law.

ghost use Rattle.emit_program_laws.specs.Turning.{MarksAreReached, TurnsAreFollowed};

use crate::choice_passes::{
    choosers_lead_to_words, guests_fault_outside_code, spans_come_back, strays_end,
};
use delay_slots::{unit_is_its_steps, unit_leads_on};
use emit_spans_laws::span_steps::{
    last_units_in_pieces_are_followed, pieces_are_entered, units_in_pieces_are_followed,
    units_stand_in_pieces, words_alone_are_followed,
};
use emit_spans_laws::{pcs_are_words, units_are_counted, units_make_steps};
use trampoline_laws::laws::{
    classes_stand, spans_are_apart, spans_are_numbered, spans_lie_in_classes,
};

/// From each state of rest the classes follow the guest's next turn, or its next two where the first leads into a delay slot, within 512 turns for
/// one of the guest's, and come to rest again. They read a word of an array only if the guest's instruction reads one, read no character, and
/// enter a span, by one call and one switch, only if the guest has crossed from one span to another.
pub fn turns_are_followed()
    ensures { TurnsAreFollowed }
{
    unit_is_its_steps();
    unit_leads_on();
    units_are_counted();
    units_make_steps();
    pcs_are_words();
    words_alone_are_followed();
    pieces_are_entered();
    units_stand_in_pieces();
    units_in_pieces_are_followed();
    last_units_in_pieces_are_followed();
    classes_stand();
    spans_lie_in_classes();
    spans_are_numbered();
    spans_are_apart();
    choosers_lead_to_words();
    guests_fault_outside_code();
    spans_come_back();
    strays_end();
}

/// From rest at a marked state of the guest the classes come within 150 turns that only move to the code of the word at which the guest is, with
/// which a piece begins.
pub fn marks_are_reached()
    ensures { MarksAreReached }
{
    units_stand_in_pieces();
    classes_stand();
    spans_lie_in_classes();
    spans_are_numbered();
    spans_are_apart();
    choosers_lead_to_words();
    guests_fault_outside_code();
    spans_come_back();
    strays_end();
}
