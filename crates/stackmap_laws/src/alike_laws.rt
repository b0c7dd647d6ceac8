//! What holds of the runs of such programs. The call here does nothing: its contract is the law.
ghost use Rattle.std.specs.Prelude.{◌≡◌, ℕ, Bool, List};
ghost use Rattle.run_definition.specs.Answer.{Answer, next_answer};
ghost use Rattle.run_definition.specs.Run.{run_of};
ghost use Rattle.jvm_definition.specs.Program.{Program};
ghost use Rattle.jvm_definition.specs.Step.{jvm_start, jvm_turn};
ghost use Rattle.stackmap_laws.specs.Alike.{IsAlike};

use nv_events::Server;

/// Programs that differ only where no run comes have the same runs, over every kind of system and over every list of answers.
pub fn programs_run_alike<V: Server>()
    ensures served { (good : ℕ → ℕ → Bool) (p q : Program) (words n : ℕ) (k : V.State)
        → IsAlike good p q
        → run_of (jvm_turn q words) V.reply n (jvm_start q) k
        ≡ run_of (jvm_turn p words) V.reply n (jvm_start p) k }
    ensures listed { (good : ℕ → ℕ → Bool) (p q : Program) (words n : ℕ) (answers : List Answer)
        → IsAlike good p q
        → run_of (jvm_turn q words) next_answer n (jvm_start q) answers
        ≡ run_of (jvm_turn p words) next_answer n (jvm_start p) answers }
{}
