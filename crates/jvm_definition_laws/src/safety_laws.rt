//! What holds of programs whose methods are typed. Each call here does nothing: its contract is the law.

ghost use Rattle.std.specs.Prelude.{◌≡◌, ◌≢◌, ℕ, ◌+◌, ◌≤◌, Bool, if◌then◌else◌, List, ◌∷◌, Some};
ghost use Rattle.run_definition.specs.Question.{Question};
ghost use Rattle.run_definition.specs.Answer.{Answer, next_answer};
ghost use Rattle.run_definition.specs.Turn.{moves, asks};
ghost use Rattle.run_definition.specs.Run.{run_of};
ghost use Rattle.run_definition.specs.declared.outcome.Outcome.TheVariants.{Trapped};
ghost use Rattle.jvm_definition.specs.declared.linked_method.LinkedMethod.{LinkedMethod};
ghost use Rattle.jvm_definition.specs.Values.{Heap};
ghost use Rattle.jvm_definition.specs.Program.{Program};
ghost use Rattle.jvm_definition.specs.Step.{Frame, JvmState, jvm_start, stuck, jvm_turn};
ghost use Rattle.jvm_definition.specs.Typing.{AllTyped, IsLinked};
ghost use Rattle.jvm_definition_laws.specs.Safety.{FrameIsSafe, CallerIsSafe, IsSafe, slots_in, InstructionFits};

use nv_events::Server;

/// The state with which a program begins is safe.
pub fn start_is_safe()
    ensures { (program : Program) → AllTyped program → IsLinked program
        → IsSafe program (jvm_start program) }
{}

/// Preservation (JVM Specification, 4.10): a step from a safe state leads to a safe state, whatever the system answers.
pub fn steps_stay_safe()
    ensures moves { (program : Program) (words : ℕ) (s t : JvmState) → AllTyped program
        → IsLinked program → IsSafe program s → jvm_turn program words s ≡ moves t → IsSafe program t }
    ensures asks { (program : Program) (words : ℕ) (s : JvmState) (q : Question)
        (next : Answer → JvmState) → AllTyped program → IsLinked program → IsSafe program s
        → jvm_turn program words s ≡ asks q next → (a : Answer) → IsSafe program (next a) }
{}

/// Progress: a safe state has a step.
pub fn safe_states_step()
    ensures { (program : Program) (words : ℕ) (s : JvmState) → AllTyped program → IsLinked program
        → IsSafe program s → jvm_turn program words s ≢ stuck }
{}

/// What the instruction of a safe state finds: its method and itself, a local variable that is there, operands that it takes, and
/// room for those that it leaves.
pub fn operands_fit()
    ensures { (program : Program) (words : ℕ) (s : JvmState) (f : Frame) (others : List Frame)
        → IsLinked program → IsSafe program s → s.frames ≡ f ∷ others
        → InstructionFits program words s f }
{}

/// A safe frame has no more operands than its method declares, and a frame that waits has room for what it is given.
pub fn frames_hold()
    ensures running { (program : Program) (heap : Heap) (f : Frame) (method : LinkedMethod)
        → FrameIsSafe program heap f → program.method f.method ≡ Some method
        → slots_in f.operands ≤ method.stack }
    ensures waiting { (program : Program) (heap : Heap) (gives_int : Bool) (f : Frame)
        (method : LinkedMethod) → CallerIsSafe program heap gives_int f
        → program.method f.method ≡ Some method
        → slots_in f.operands + (if gives_int then 1 else 0) ≤ method.stack }
{}

/// A run from a safe state leaves a safe one.
pub fn runs_stay_safe<V: Server>()
    ensures answers { (program : Program) (words n : ℕ) (s : JvmState) (answers : List Answer)
        → AllTyped program → IsLinked program → IsSafe program s
        → IsSafe program (run_of (jvm_turn program words) next_answer n s answers).last }
    ensures servers { (program : Program) (words n : ℕ) (s : JvmState) (k : V.State) → AllTyped program
        → IsLinked program → IsSafe program s
        → IsSafe program (run_of (jvm_turn program words) V.reply n s k).last }
{}

/// No run of a typed program comes to a step that no rule gives: not over any list of answers, and not over any server.
pub fn typed_programs_are_never_stuck<V: Server>()
    ensures answers { (program : Program) (words n : ℕ) (answers : List Answer) → AllTyped program
        → IsLinked program
        → (run_of (jvm_turn program words) next_answer n (jvm_start program) answers).outcome ≢ Trapped 0 }
    ensures servers { (program : Program) (words n : ℕ) (k : V.State) → AllTyped program
        → IsLinked program
        → (run_of (jvm_turn program words) V.reply n (jvm_start program) k).outcome ≢ Trapped 0 }
{}
