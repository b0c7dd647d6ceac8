//! What holds of registers that are read and written. Each call here does nothing: its contract is the law.

ghost use Rattle.std.specs.Prelude.{◌≡◌, ℕ, ◌<◌, Bool, List, ◌∷◌};
ghost use Rattle.run_definition.specs.Words.{IsWord};
ghost use Rattle.mips_definition.specs.State.{State, register, with_register};
ghost use Rattle.jvm_definition.specs.declared.value.Value.{Value};
ghost use Rattle.jvm_definition.specs.declared.value.Value.TheVariants.{Int as int};
ghost use Rattle.jvm_definition.specs.Program.{Program};
ghost use Rattle.jvm_definition.specs.Effect.{Workspace, with_operands};
ghost use Rattle.emit_steps.specs.declared.step.Step.{Step};
ghost use Rattle.emit_steps.specs.Outcomes.{later, outcome};
ghost use Rattle.emit_instructions.specs.Access.{get_register, put_register};
ghost use Rattle.emit_simulation_laws.specs.Knowing.{IsKnown, gaining};
ghost use Rattle.emit_simulation_laws.specs.Holding.{HoldsOn, Keeps, KeepsGoal, with_value};

/// Code that reads a register pushes its word.
pub fn registers_are_pushed()
    ensures { (program : Program) (words bank r : ℕ) (known : ℕ → Bool) (code : List Step)
        (w : Workspace) (s : State)
        → HoldsOn bank known w s
        → IsKnown known r
        → outcome program words (get_register bank r ∷ code) w
        ≡ later (outcome program words code (with_operands w (int (register s r) ∷ w.operands))) }
{}

/// Code that writes a register takes the word on the stack. Then the state with this word in the register is held, and what was known
/// of the others is.
pub fn registers_are_put()
    ensures goes_on { (program : Program) (words bank d n : ℕ) (code : List Step) (w : Workspace)
        (rest : List Value)
        → w.operands ≡ int n ∷ rest
        → outcome program words (put_register bank d ∷ code) w
        ≡ later (outcome program words code (with_value bank d (int n) w rest)) }
    ensures held { (bank d n : ℕ) (known : ℕ → Bool) (w : Workspace) (s : State)
        (operands : List Value)
        → d < 32
        → IsWord n
        → HoldsOn bank known w s
        → HoldsOn bank (gaining known d) (with_value bank d (int n) w operands)
        (with_register s d n) }
    ensures goal_kept { (bank d n : ℕ) (w : Workspace) (operands : List Value) → d < 32
        → KeepsGoal w (with_value bank d (int n) w operands) }
    ensures kept { (bank d n : ℕ) (w : Workspace)
        → Keeps bank w (with_value bank d (int n) w w.operands) }
{}
