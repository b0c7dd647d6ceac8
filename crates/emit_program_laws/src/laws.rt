//! That a translated program runs as its guest does. Each call here does nothing: its contract is the law.

ghost use Rattle.std.specs.Prelude.{ℕ, List};
ghost use Rattle.run_definition.specs.Answer.{Answer, next_answer};
ghost use Rattle.run_simulation_laws.specs.Runs.{SameRuns, allowance};
ghost use Rattle.mips_definition.specs.Step as guest_step;
ghost use Rattle.jvm_definition.specs.Step.{jvm_start, jvm_turn};
ghost use Rattle.emit_program_laws.specs.Alike.{CountsAsItsGuest, TranslatedProgramsComeToMarks};
ghost use Rattle.emit_program_laws.specs.Translated.{TranslatedProgram, IsTranslatedProgram, LoadsWithin, guest_start};

use crate::choice_passes::begun_programs_choose;
use crate::turn_laws::{marks_are_reached, turns_are_followed};
use emit_loading_laws::laws::programs_load;
use emit_paths_laws::laws::weights;
use trampoline_laws::laws::spans_are_numbered;

/// For every list of answers the classes run as the guest does, both ways: they ask the same, and end in the same way. For n turns of the guest they
/// have 512 turns n + 1 times, and so many more that these and two times 512 are enough for loading.
pub fn translated_programs_run_alike()
    ensures { (t : TranslatedProgram) (extra : ℕ) → IsTranslatedProgram t → LoadsWithin t extra
        → (answers : List Answer)
        → SameRuns guest_step.turn (jvm_turn t.program t.words) next_answer (allowance 512 extra)
        (guest_start t) (jvm_start t.program) answers }
{
    begun_programs_choose();
    weights();
    programs_load();
    spans_are_numbered();
    turns_are_followed();
}

/// In so many turns, after the first call, the classes read at most as many words of memory as the guest makes accesses for which a word is
/// read, and they read no character. They switch there, and enter spans in their whole run, at most once for each crossing of the guest, and
/// once more.
pub fn translated_programs_count_alike()
    ensures { (t : TranslatedProgram) → IsTranslatedProgram t → CountsAsItsGuest t }
{
    begun_programs_choose();
    weights();
    programs_load();
    spans_are_numbered();
    turns_are_followed();
}

/// If the guest goes on at a marked state, after one turn at least, the classes come to the code of the word at which it is, with the same
/// questions and within the allowance for a turn more. States may be marked between units, at words with which pieces begin.
pub fn translated_programs_come_to_marks()
    ensures { TranslatedProgramsComeToMarks }
{
    begun_programs_choose();
    weights();
    programs_load();
    spans_are_numbered();
    turns_are_followed();
    marks_are_reached();
}
