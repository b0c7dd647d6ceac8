//! What holds of every net. Each call here does nothing: its contract is the law.

ghost use Rattle.std.specs.Prelude.{List};
ghost use Rattle.jvm_definition.specs.Step.{Loaded};
ghost use Rattle.unix_pipe_laws.specs.Pipelines.{Pipeline};
ghost use Rattle.pipe_net.specs.Showing.{IsSound};
ghost use Rattle.pipe_net.specs.Histories.{SomeGoesOn};
ghost use Rattle.pipe_net.specs.Laws.{MadeTurn, Moment, SomeStageRuns, TurnsEndInOrder};

/// Whatever turns are made of a net: once all of its stages are over, they have ended as they do one after the other.
pub fn turns_end_in_order()
    ensures { (p : Pipeline Loaded) (x : Moment) (turns : List MadeTurn)
        → TurnsEndInOrder p x turns }
{}

/// While a stage of a net is not over, there is a stage whose next turn is neither `Over` nor `Blocked`.
pub fn some_stage_runs()
    ensures { (x : Moment) → IsSound x.net → SomeGoesOn x.net → SomeStageRuns x }
{}
