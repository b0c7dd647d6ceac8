//! What holds of all runs. Each call here does nothing: its contract is the law.

ghost use Rattle.std.specs.Prelude.{ℕ};
ghost use Rattle.run_definition.specs.Answer.{next_answer};
ghost use Rattle.jvm_definition.specs.Program.{Program};
ghost use Rattle.jvm_definition_laws.specs.StretchLaws.{StretchesRun, StretchesCompose, LinesTurn, CallsEnter, CallsComeBack, RunsBeginWithMoves};

use nv_events::Server;

/// A stretch of code that is run by itself is a run of the machine wherever it is, with the same count of instructions.
pub fn stretches_stand_anywhere()
    ensures { StretchesRun }
{}

/// Stretches compose: n + k instructions are n and then k from where these lead. So do turns that only move.
pub fn stretches_compose()
    ensures { (program : Program) (words n k : ℕ) → StretchesCompose program words n k }
{}

/// Where a line of code is, the machine's turn is by that line's effect. The line's targets are as far on as the code is.
pub fn turns_where_code_stands()
    ensures { LinesTurn }
{}

/// A call where code is leads to the start of the method's code, with its arguments. The caller waits after the call, above
/// the frames that were there, of which there may be 62.
pub fn calls_enter_methods()
    ensures { CallsEnter }
{}

/// A call of a method whose body leads to its return is these instructions and two more.
pub fn calls_return()
    ensures { CallsComeBack }
{}

/// Turns that only move ask nothing: a run that begins with them is the run from where they lead, for every server and over every
/// list of answers.
pub fn runs_begin_with_moves<V: Server>()
    ensures served { RunsBeginWithMoves V.reply }
    ensures listed { RunsBeginWithMoves next_answer }
{}
