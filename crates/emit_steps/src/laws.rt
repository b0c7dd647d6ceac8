//! What holds of code wherever it lies. Each call here does nothing: its contract is the law.

ghost use Rattle.std.specs.Prelude.{ℕ, List, length};
ghost use Rattle.jvm_definition.specs.Program.{Program};
ghost use Rattle.jvm_definition.specs.Effect.{Workspace};
ghost use Rattle.emit_steps.specs.declared.step.Step.{Step};
ghost use Rattle.emit_steps.specs.Outcomes.{outcome, IsWithin};
ghost use Rattle.emit_steps.specs.Laws.{CodeLeads, CodesFollow, PartsLie, CallsLeadBehind};

/// Code that lies in a method does there what its list of steps says, from any of its steps on.
pub fn code_does_what_it_says()
    ensures { CodeLeads }
{}

/// Code and other code after it do what the one does and then the other, where no branch of the first goes past its end.
pub fn codes_follow_each_other()
    ensures { CodesFollow }
{}

/// Code lies at an offset where its two parts lie one after the other, where no branch of the first goes past its end.
pub fn parts_lie_behind_each_other()
    ensures { PartsLie }
{}

/// Branches go forward, so code executes no more instructions than it has steps, and where it stops no more than are before that
/// step.
pub fn no_more_instructions_than_steps()
    ensures { (program : Program) (words : ℕ) (code : List Step) (w : Workspace)
        → IsWithin (length code) (outcome program words code w) }
{}

/// A call whose method returns leads after the call, with two instructions more than the method's.
pub fn calls_return()
    ensures { CallsLeadBehind }
{}
