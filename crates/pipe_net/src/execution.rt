//! The instructions of a stage, up to a call that is not ready.

ghost use Rattle.std.specs.Prelude.{◌≡◌, ◌+◌, ◌<◌, ◌≤◌, ◌^◌, false, length, IfOk, None};
ghost use Rattle.jvm_machine.specs.Machine.{has_ended, state_of};
ghost use Rattle.jvm_machine.specs.Counting.{count_of};
ghost use Rattle.pipe_net.specs.Executing.{Executes, GoesOnBehind};
ghost use Rattle.pipe_net.specs.Views.{ports, scene};

use crate::executed::{Executed, Stop};
use crate::piped::Piped;
use jvm_machine::Jvm;
use nv_events::{IoFault, Machine, Outcome};
use nv_outside::{Sink, Source};

/// Executes up to `most` instructions. A call that is not ready is not executed, and nothing has changed for it.
///
/// # Errors
///
/// The fault of a call that failed.
pub(crate) fn execute<'a, S: Source, O: Sink>(
    jvm: &mut Jvm,
    most: u64,
    server: &mut Piped<'a, S, O>,
) -> Result<Executed, IoFault>
    requires going { has_ended jvm.old ≡ false }
    requires sound { server.old.failed ≡ None }
    requires short { length server.old.unix.now.ahead ≤ 4096 }
    requires within { count_of jvm.old + most < 2 ^ 64 }
    ensures executes { Executes most (scene jvm.old (ports S.Source O.Sink server.old))
        (scene jvm.new (ports S.Source O.Sink server.new)) result }
    ensures count { IfOk result (λ executed. count_of jvm.new ≡ count_of jvm.old + executed.count) }
    ensures goes_on { IfOk result (λ executed. GoesOnBehind executed.stop (has_ended jvm.new)) }
    ensures short { length server.new.unix.now.ahead ≤ 4096 }
    ensures same_inlet { server.new.inlet ≡ server.old.inlet }
    ensures same_outlet { server.new.outlet ≡ server.old.outlet }
    ensures same_c { server.new.c ≡ server.old.c }
    ensures same_unix { server.new.unix.ghost_name ≡ server.old.unix.ghost_name }
    ensures same_source { server.new.source.ghost_name ≡ server.old.source.ghost_name }
    ensures same_before { server.new.before.ghost_name ≡ server.old.before.ghost_name }
    ensures same_sink { server.new.sink.ghost_name ≡ server.old.sink.ghost_name }
    ensures same_behind { server.new.behind.ghost_name ≡ server.old.behind.ghost_name }
    ensures same_errors { server.new.errors.ghost_name ≡ server.old.errors.ghost_name }
{
    for count in 0..most {
        match jvm.advance(server)? {
            None => {}
            Some(outcome) => match outcome {
                Outcome::Waiting => {
                    jvm.retry();
                    return Ok(Executed {
                        count,
                        stop: Stop::NotReady,
                    });
                }
                _ => {
                    return Ok(Executed {
                        count: count + 1,
                        stop: Stop::Ended(outcome),
                    });
                }
            },
        }
    }
    Ok(Executed {
        count: most,
        stop: Stop::Most,
    })
}
