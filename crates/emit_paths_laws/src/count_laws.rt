//! What the runs of both machines count. Each call here does nothing: its contract is the law.

ghost use Rattle.std.specs.Prelude.{◌≡◌, ℕ, ◌<◌, Bool, false, List, length, Option, Some, IsTrue};
ghost use Rattle.run_definition.specs.Answer.{Answer, next_answer};
ghost use Rattle.run_simulation_laws.specs.Trail.{advanced};
ghost use Rattle.mips_definition.specs.State as guest;
ghost use Rattle.jvm_definition.specs.declared.linked_line.LinkedLine.{LinkedLine};
ghost use Rattle.jvm_definition.specs.declared.value.Value.{Value};
ghost use Rattle.jvm_definition.specs.Program.{Program};
ghost use Rattle.jvm_definition.specs.Effect.{Workspace};
ghost use Rattle.jvm_definition.specs.Step.{JvmState, Frame, jvm_turn};
ghost use Rattle.jvm_definition_laws.specs.Stretch as code;
ghost use Rattle.jvm_definition_laws.specs.Stretch.{Point, stretch, CallsAndReturns};
ghost use Rattle.jvm_definition_laws.specs.StretchLaws.{StandingStretch};
ghost use Rattle.emit_paths_laws.specs.Classes.{reads, chars, switches, entries};
ghost use Rattle.emit_paths_laws.specs.Code.{all_forward, CallsThrough};
ghost use Rattle.emit_paths_laws.specs.CountLaws.{LoaderCountsNothing, IsSameAnywhere, StretchCounts, ForwardStretch, CallCounts, BodyCounts, LoadedRuns, LoadedCounts};

use nv_events::Server;

/// The loader's call is no crossing and reads nothing: what a run of the guest counts from its start on is what it counts after its
/// first call.
pub fn the_loader_counts_nothing()
    ensures { (n : ℕ) (s : guest.State) (answers : List Answer) → s.begun ≡ false
        → LoaderCountsNothing n s answers }
{}

/// What an instruction counts does not depend on its targets, so it is the same wherever its code is.
pub fn counts_look_at_no_target()
    ensures reads { IsSameAnywhere reads }
    ensures chars { IsSameAnywhere chars }
    ensures switches { IsSameAnywhere switches }
    ensures entries { (is_span : ℕ → Bool) → IsSameAnywhere (entries is_span) }
{}

/// A stretch of code counts, where it is, what the lines count that it passes by itself. It visits their offsets, and none of
/// another method.
pub fn stretches_count_where_they_stand()
    ensures { (program : Program) (words m by n at : ℕ) (lines : List LinkedLine) (w : Workspace)
        (others : List Frame) (p : Point)
        → StandingStretch program words m by n at lines w p
        → StretchCounts program words m by n at lines w others }
{}

/// A call counts its own line, what the turns inside it count, and the return; these turns may go through further calls. In the
/// caller it visits its own line alone, where it calls another method and they do not come back to the caller.
pub fn calls_nest()
    ensures { (program : Program) (words m n : ℕ) (line : LinkedLine) (w caller back : Workspace)
        (result : Option Value) (others : List Frame)
        (c : CallsThrough program words m line w others n result caller back)
        → length others < 63
        → CallCounts c }
{}

/// So a call of a method whose lines lead to its return counts its own line, what those lines count by themselves, and the return.
pub fn calls_count_with_their_bodies()
    ensures { (program : Program) (words m n : ℕ) (line : LinkedLine) (w caller back : Workspace)
        (result : Option Value) (others : List Frame)
        (c : CallsAndReturns program words m line w n result caller back)
        → length others < 63
        → BodyCounts others c }
{}

/// Code whose lines go only to what is after them executes each line at most once: the offsets that it visits rise. So it executes
/// no more instructions than there are lines, and counts no more than all lines do.
pub fn forward_code_executes_each_line_once()
    ensures { (program : Program) (words n at : ℕ) (lines : List LinkedLine) (w : Workspace)
        (p : Point)
        → IsTrue (all_forward lines)
        → stretch program words lines n at w ≡ Some p
        → ForwardStretch program words n at lines w p }
{}

/// Turns that only move are the same ones in the laws of runs and in those of stretches.
pub fn moves_are_one()
    ensures { (program : Program) (words n : ℕ) (s : JvmState)
        → advanced (jvm_turn program words) n s ≡ code.advanced (jvm_turn program words) n s }
{}

/// A loaded program runs as its state does, over every list of answers and every system, and counts the same.
pub fn loaded_programs_run_as_their_states<V: Server>()
    ensures listed { LoadedRuns next_answer }
    ensures served { LoadedRuns V.reply }
    ensures counts { LoadedCounts }
{}
