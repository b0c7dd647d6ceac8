//! Which calls wait for a pipe.

ghost use Rattle.std.specs.Prelude.{◌≡◌};
ghost use Rattle.run_definition.specs.Memory.{Memory};
ghost use Rattle.run_definition.specs.Question.{asked};
ghost use Rattle.unix_pipe_laws.specs.Stages.{reads_input, writes_output};

use nv_events::Call;
use unix_calls::Unix;
use unix_calls::numbers::{READ, WRITE};
use unix_calls::sides::{INPUT, OUTPUT};

/// Whether a call reads some bytes of input.
pub(crate) fn reads_input(unix: &Unix, call: &Call) -> bool
    ensures { (m : Memory) → result ≡ reads_input unix.now.opened (asked call.now m) }
{
    call.number == READ && unix.console(call.a0) == INPUT && call.a2 != 0
}

/// Whether a call writes to output.
pub(crate) fn writes_output(unix: &Unix, call: &Call) -> bool
    ensures { (m : Memory) → result ≡ writes_output unix.now.opened (asked call.now m) }
{
    call.number == WRITE && unix.console(call.a0) == OUTPUT
}
