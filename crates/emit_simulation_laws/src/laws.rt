//! How code follows the guest. Each call here does nothing: its contract is the law.

ghost use Rattle.emit_simulation_laws.specs.Laws.{PathLaws};

use emit_paths_laws::laws::{calls_are_paths, calls_that_stop, code_is_a_path, turns_at_steps};
use emit_steps::laws::parts_lie_behind_each_other;

/// Code that lies in a method is a path to where its outcome leads, with the methods that it calls.
pub fn code_is_paths()
    ensures { PathLaws }
{
    code_is_a_path();
    calls_are_paths();
    calls_that_stop();
    turns_at_steps();
    parts_lie_behind_each_other();
}
