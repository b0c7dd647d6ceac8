//! What holds of all runs. Each call here does nothing: its contract is the law.

ghost use Rattle.std.specs.Prelude.{◌≡◌, ℕ, List, []};
ghost use Rattle.run_definition.specs.Run.{run_of};
ghost use Rattle.unix_definition.specs.System.{System, with_most};
ghost use Rattle.unix_definition.specs.Unix.{system_start, reply};
ghost use Rattle.unix_calls.specs.Held.{Held, system_of};
ghost use Rattle.unix_calls.specs.Starting.{Begins, BeginsLimited};
ghost use Rattle.unix_calls.specs.Playing.{behind, run_behind};

use nv_events::Machine;

/// Before the first call the system is the definition's `start`, with what the source has left as its input.
pub fn begins_at_start()
    ensures { (held : Held) (blocks moment : ℕ) (files : List (List ℕ × List ℕ))
        (args : List (List ℕ)) (rest : List ℕ) → Begins held blocks moment files args
        → system_of held rest [] [] ≡ system_start blocks moment files args rest }
{}

/// The same where its reads of input are limited.
pub fn begins_limited()
    ensures { (most : ℕ) (held : Held) (blocks moment : ℕ) (files : List (List ℕ × List ℕ))
        (args : List (List ℕ)) (rest : List ℕ)
        → BeginsLimited most held blocks moment files args
        → system_of held rest [] [] ≡ with_most (system_start blocks moment files args rest) most }
{}

/// What was written before a run does not matter to it, and stays in front of what it writes. So a run that is played in parts is
/// one run, whose output is that of its parts.
pub fn runs_behind<M: Machine>()
    ensures { (n : ℕ) (s : M.State) (k : System) (output error_output : List ℕ)
        → run_of M.turn reply n s (behind output error_output k)
        ≡ run_behind output error_output (run_of M.turn reply n s k) }
{}
