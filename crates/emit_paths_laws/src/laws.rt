//! What holds of paths of the class machine. Each call here does nothing: its contract is the law.

ghost use Rattle.std.specs.Prelude.{◌≡◌, ℕ, suc, ◌+◌, ◌++◌, ◌≤◌, List, [], ◌∷◌, slice_get, take, drop, Some};
ghost use Rattle.jvm_definition.specs.declared.instruction.Instruction.{Instruction};
ghost use Rattle.jvm_definition.specs.Program.{Program, linked_line_at};
ghost use Rattle.jvm_definition.specs.Effect.{Workspace};
ghost use Rattle.jvm_definition.specs.Step.{Frame};
ghost use Rattle.emit_steps.specs.declared.step.Step.{Step};
ghost use Rattle.emit_steps.specs.declared.step.Step.TheVariants.{Does};
ghost use Rattle.emit_steps.specs.Widths.{bytes_before};
ghost use Rattle.emit_steps.specs.Placing.{placed_line, LiesAt};
ghost use Rattle.emit_paths_laws.specs.Fields.{FieldsAreLeft};
ghost use Rattle.emit_paths_laws.specs.Paths.{step_weight, weigh};
ghost use Rattle.emit_paths_laws.specs.Laws.{CodeIsPath, CodeIsPathElsewhere, StopsByEffect, PathsJoin, OneTurnIsPath, TurnsAtSteps, TurnsAtStepsElsewhere, CallsAreTurns, CallsArePaths, CallsArePathsElsewhere, CallsThatStop, CallsThatStopElsewhere, CallsInCallsThatStop, CountsLookAtNoTarget};

use emit_steps::laws::code_does_what_it_says;

/// Code that lies in a method is a path to where its list of steps says, from any of its steps on, seen from that method and from another.
pub fn code_is_a_path()
    ensures within { CodeIsPath }
    ensures elsewhere { CodeIsPathElsewhere }
{
    code_does_what_it_says();
}

/// A path after a path is a path, and no turn at all is one. A path may be given more weight and more room than it takes; one that has no
/// room visits nothing, so it lies anywhere.
pub fn paths_join()
    ensures { (program : Program) (words m : ℕ) → PathsJoin program words m }
{}

/// A turn that only moves is a path: it counts its instruction, and visits its offset in the method that runs and nothing in another.
pub fn one_turn()
    ensures { (program : Program) (words m : ℕ) → OneTurnIsPath program words m }
{}

/// A turn that only moves, from a step of code that lies in a method, is a path: it counts that step.
pub fn turns_at_steps()
    ensures within { TurnsAtSteps }
    ensures elsewhere { TurnsAtStepsElsewhere }
{}

/// Code that stops at a step that is no branch stops with the effect of its instruction.
pub fn stops_are_effects()
    ensures { StopsByEffect }
{}

/// A call makes a frame, and a return takes it away: both only move.
pub fn calls_are_turns()
    ensures { (program : Program) (words own at h callee : ℕ) (caller : Workspace)
        (others : List Frame) → CallsAreTurns program words own at h callee caller others }
{}

/// A call whose method comes to its return is a path after the call: it counts the call, and no more than all of the method's code. In
/// the caller's method it visits the call alone, and in a third one nothing.
pub fn calls_are_paths()
    ensures within { CallsArePaths }
    ensures elsewhere { CallsArePathsElsewhere }
{
    code_is_a_path();
}

/// A call whose method's code stops, with any effect, is a path to where it stops.
pub fn calls_that_stop()
    ensures within { CallsThatStop }
    ensures elsewhere { CallsThatStopElsewhere }
{
    code_is_a_path();
}

/// So is a call whose method's code comes to a call, whose method's code stops.
pub fn calls_in_calls_that_stop()
    ensures { CallsInCallsThatStop }
{
    calls_that_stop();
    paths_join();
    steps_lie_in_code();
    stops_are_effects();
}

/// The steps of code that lies in a method lie one after the other. One that is no branch lies there by itself too.
pub fn steps_lie_in_code()
    ensures lines { (program : Program) (m at i : ℕ) (code : List Step) (s : Step)
        → LiesAt program m at code
        → slice_get code i ≡ Some s
        → linked_line_at program m (at + bytes_before code i)
        ≡ Some (placed_line (at + bytes_before code i) s (drop (suc i) code)) }
    ensures alone { (program : Program) (m at i : ℕ) (code : List Step) (instruction : Instruction)
        → LiesAt program m at code
        → slice_get code i ≡ Some (Does instruction)
        → LiesAt program m (at + bytes_before code i) (Does instruction ∷ []) }
{}

/// Steps weigh together what their parts weigh, and no less than a front part or what lies after it. What is counted of a run of the
/// classes looks at no target.
pub fn weights()
    ensures both { (weight : Instruction → ℕ) (first second : List Step)
        → weigh weight (first ++ second) ≡ weigh weight first + weigh weight second }
    ensures one_more { (weight : Instruction → ℕ) (k : ℕ) (code : List Step) (s : Step)
        → slice_get code k ≡ Some s
        → weigh weight (take (suc k) code) ≡ weigh weight (take k code) + step_weight weight s }
    ensures back { (weight : Instruction → ℕ) (k : ℕ) (code : List Step)
        → weigh weight (drop k code) ≤ weigh weight code }
    ensures front { (weight : Instruction → ℕ) (k : ℕ) (code : List Step)
        → weigh weight (take k code) ≤ weigh weight code }
    ensures targets { CountsLookAtNoTarget }
{}

/// A field is changed by writes of it alone: what weighs no write of a field leaves it as it was, and so does a call of the system.
pub fn fields_are_left()
    ensures { (program : Program) (words f : ℕ) → FieldsAreLeft program words f }
{}
