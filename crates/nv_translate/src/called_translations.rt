//! What holds where translations call the system. Each call here does nothing: its contract is the law.

ghost use Rattle.run_definition.specs.Answer.{next_answer};
ghost use Rattle.unix_definition.specs.Unix.{reply};
ghost use Rattle.class_definition.specs.Linking.{program_of};
ghost use Rattle.nv_translate.specs.Calls.{HoldsAtCalls, HoldsAtMeteredCalls};
ghost use Rattle.nv_translate.specs.Images.{OfMeteredTranslations, OfTranslations};

use crate::translated_loading::{others_do_not_load, translations_load};
use crate::translated_methods::translations_stand;
use emit_calls_laws::laws::hosts_set_states;
use emit_calls_laws::programs_load;
use emit_calls_laws::turn_laws::{metered_turns_hold_at_calls, turns_hold_at_calls};
use emit_metered_laws::laws::metered_programs_follow;
use emit_metered_laws::turn_laws::metered_turns_are_followed;
use emit_paths_laws::laws::weights;
use emit_program_laws::choice_passes::begun_programs_choose;
use emit_program_laws::turn_laws::turns_are_followed;
use emit_program_laws::{images_are_pages, spans_are_numbered};

/// If a run of the classes has come to a call, the program has come to the same one, and fields and arrays hold HI, LO, the link of LL and the memory
/// of its state. If the host leaves the run there, keeps the tables, and sets another state of the program's, they hold that. So it is over every
/// list of answers, and over the system.
pub fn translations_hold_at_calls()
    ensures answered { OfTranslations (λ source layout program. HoldsAtCalls next_answer source program) }
    ensures served { OfTranslations (λ source layout program. HoldsAtCalls reply source program) }
{
    images_are_pages();
    others_do_not_load();
    translations_load();
    translations_stand();
    begun_programs_choose();
    weights();
    programs_load();
    spans_are_numbered();
    turns_are_followed();
    turns_hold_at_calls();
    hosts_set_states();
}

/// So it is with a meter, where fields hold the registers too, and what is left on the meter.
pub fn metered_translations_hold_at_calls()
    ensures answered { OfMeteredTranslations (λ source turns classes. HoldsAtMeteredCalls next_answer source turns (program_of classes)) }
    ensures served { OfMeteredTranslations (λ source turns classes. HoldsAtMeteredCalls reply source turns (program_of classes)) }
{
    images_are_pages();
    others_do_not_load();
    translations_load();
    translations_stand();
    metered_programs_follow();
    metered_turns_are_followed();
    metered_turns_hold_at_calls();
    hosts_set_states();
}
