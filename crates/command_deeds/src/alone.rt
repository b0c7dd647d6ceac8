//! The run of a machine on a system of its own, which no file, input or output of the command takes part in.
ghost use Rattle.std.specs.Prelude.{◌≡◌, ◌≤◌, ◌∷◌, [], IfOk, Some, false, length};
ghost use Rattle.unix_calls.specs.Starting.{Begins};
ghost use Rattle.command_deeds.specs.Runs.{answer_of, run_alone};

use crate::done::Done;
use crate::no_input::NoInput;
use crate::no_output::NoOutput;
use crate::outcomes::answer_of;
use nv_events::Machine;
use std::alloc::{AllocError, Global};
use unix_calls::laws::begins_at_start;
use unix_calls::{Unix, UnixError, play};

/// The blocks of the disk of a machine that runs alone.
pub const BLOCKS: u32 = 1024;

/// Runs a machine for so many steps on a system of its own: without files and input, with a name as its one argument.
/// What it writes is dropped.
pub fn play_alone<M: Machine + Drop>(
    alloc: Global,
    name: &str,
    moment: u64,
    machine: M,
    steps: u64,
) -> Result<Done, AllocError>
    requires going { M.has_ended machine ≡ false }
    requires short { length name.now ≤ 64 }
    ensures { IfOk result (λ answer.
        answer_of (run_alone steps M.turn (M.state machine) name.now moment).outcome
        ≡ Some answer) }
{
    begins_at_start();
    let mut machine = machine;
    let mut unix = alone(alloc, name, moment)?;
    let ended = play(
        &mut machine,
        steps,
        &mut unix,
        &mut NoInput,
        &mut NoOutput,
        &mut NoOutput,
    );
    match ended {
        Ok(outcome) => Ok(answer_of(outcome)),
        Err(_) => unreachable!(),
    }
}

/// A system without files, with one argument.
fn alone(alloc: Global, name: &str, moment: u64) -> Result<Unix, AllocError>
    requires short { length name.now ≤ 64 }
    ensures begins { IfOk result (λ unix. Begins unix BLOCKS moment [] (name.now ∷ [])) }
{
    let mut unix = Unix::new(alloc, BLOCKS, moment)?;
    match unix.add_arg(name) {
        Ok(()) => Ok(unix),
        Err(UnixError::NoMemory) => Err(AllocError),
        Err(UnixError::ArgsTooLong(_) | UnixError::FilesTooLarge(_)) => unreachable!(),
    }
}
