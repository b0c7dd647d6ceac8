//! What holds of every pipeline. Each call here does nothing: its contract is the law.

ghost use Rattle.std.specs.Prelude.{◌≡◌, ℕ, ◌<◌, true, false, List};
ghost use Rattle.unix_pipe_laws.specs.Pipelines.{Pipeline, PipeNet, is_over_at, can_turn};
ghost use Rattle.unix_pipe_laws.specs.Turns.{PipeTurn, AllOver, BringNothing, net_at_start, run_turns};
ghost use Rattle.unix_pipe_laws.specs.Alone.{EndsAsAlone, IsFreshPipeline, WritesFront, first_run, first_run_arriving};

use nv_events::Machine;

/// Whatever turns the stages make, once all are over each has ended as it does alone, with all of its input there from
/// the first. A read of input can be made once the stage before is over, or so many bytes or the end of a line are
/// there; a write to output while the pipe is not full, or once its reader is over.
pub fn turns_do_not_matter<M: Machine>()
    ensures { (p : Pipeline M.State) (turns : List PipeTurn) → IsFreshPipeline p
        → BringNothing turns → AllOver p (run_turns p (net_at_start p) turns)
        → (i : ℕ) → i < p.count
        → EndsAsAlone p (first_run p) (run_turns p (net_at_start p) turns) i }
{}

/// The same where the pipeline's input comes in pieces: the first stage ends as it does alone over such pieces, one before each call.
pub fn pieces_come_to_the_first<M: Machine>()
    ensures { (p : Pipeline M.State) (turns : List PipeTurn) → IsFreshPipeline p
        → AllOver p (run_turns p (net_at_start p) turns) → (pieces : List (List ℕ))
        × ((i : ℕ) → i < p.count
        → EndsAsAlone p (first_run_arriving p pieces) (run_turns p (net_at_start p) turns) i) }
{}

/// Whatever turns the stages have made, each has written a front part of what it writes alone.
pub fn outputs_are_front_parts<M: Machine>()
    ensures { (p : Pipeline M.State) (turns : List PipeTurn) → IsFreshPipeline p
        → BringNothing turns → (i : ℕ)
        → WritesFront p (first_run p) (run_turns p (net_at_start p) turns) i }
{}

/// The same where the pipeline's input comes in pieces.
pub fn outputs_are_front_parts_over_pieces<M: Machine>()
    ensures { (p : Pipeline M.State) (turns : List PipeTurn) → IsFreshPipeline p
        → (pieces : List (List ℕ)) × ((i : ℕ)
        → WritesFront p (first_run_arriving p pieces) (run_turns p (net_at_start p) turns) i) }
{}

/// While a stage is not over, some stage can make a turn.
pub fn some_stage_goes_on<M: Machine>()
    ensures { (p : Pipeline M.State) (net : PipeNet M.State) (i : ℕ) → i < p.count
        → is_over_at p net i ≡ false → (j : ℕ) × (can_turn p net j ≡ true) }
{}
