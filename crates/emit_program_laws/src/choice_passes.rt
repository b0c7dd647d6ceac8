//! How the classes come from one word to the next. Each call here does nothing: its contract is the law.

ghost use Rattle.emit_program_laws.specs.Choosing.{BegunProgramsChoose, ChoosersLeadToWords, GuestsStray, MeteredStraysEnd, SpansComeBack, SpentStraysEnd, StraysEnd};

use emit_paths_laws::laws::{code_is_a_path, stops_are_effects, turns_at_steps};
use emit_spans_laws::laws::{fields_hold_all, returns_give_back, spans_are_entered};
use trampoline_laws::choice_laws::{
    choosers_weigh_their_calls, class_choosers_choose, main_choosers_choose, paths_make_no_calls,
    strays_fault,
};
use trampoline_laws::laws::{
    chosen_are_methods, classes_rise, classes_stand, spans_are_numbered, spans_lie_in_classes,
    spans_rise, strays_are_missing, words_are_chosen, words_are_in_spans, words_fill_classes,
};

/// From the beginning of a method that chooses, the classes come to the code of the word at which the guest is:
/// they read nothing, and make one entry and one switch at most. If no word can be fetched, they come to the method
/// for addresses outside all code, hold the guest's state there, and count nothing. Either takes at most 150 turns.
pub fn choosers_lead_to_words()
    ensures { ChoosersLeadToWords }
{
    choosers_weigh_their_calls();
    class_choosers_choose();
    main_choosers_choose();
    paths_make_no_calls();
    code_is_a_path();
    stops_are_effects();
    turns_at_steps();
    fields_hold_all();
    spans_are_entered();
    chosen_are_methods();
    classes_rise();
    classes_stand();
    spans_are_numbered();
    spans_lie_in_classes();
    spans_rise();
    strays_are_missing();
    words_are_chosen();
    words_are_in_spans();
    words_fill_classes();
}

/// From there they come to the fault of an address from which no word can be fetched, with a meter where a turn is left, and otherwise to the fault of a
/// spent meter, with fields and arrays as they were.
pub fn strays_end()
    ensures plain { StraysEnd }
    ensures metered { MeteredStraysEnd }
    ensures spent { SpentStraysEnd }
{
    choosers_weigh_their_calls();
    paths_make_no_calls();
    strays_fault();
    code_is_a_path();
    stops_are_effects();
    turns_at_steps();
}

/// If no word can be fetched, the guest's run ends in the fault of its address.
pub fn guests_fault_outside_code()
    ensures { GuestsStray }
{}

/// If the classes have begun, they are at the beginning of the method that chooses among classes.
pub fn begun_programs_choose()
    ensures { BegunProgramsChoose }
{}

/// From a return of the method of a span they come back to the beginning of its class's method that chooses, and count
/// nothing. It takes at most 13 turns.
pub fn spans_come_back()
    ensures { SpansComeBack }
{
    returns_give_back();
    fields_hold_all();
}
