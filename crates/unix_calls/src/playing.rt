ghost use Rattle.std.specs.Prelude.{◌≡◌, ◌≢◌, ◌≤◌, None, Ok, Err, IfErr, IfOk, false, true, length};
ghost use Rattle.nv_outside.specs.Seen.{input_seen, output_seen};
ghost use Rattle.unix_calls.specs.Serving.{parts};
ghost use Rattle.unix_calls.specs.Playing.{Breaks, Plays};

use crate::joined::Joined;
use crate::unix::Unix;
use nv_events::{IoFault, Machine, Outcome, run};
use nv_outside::{Sink, Source};

/// Runs a machine for up to `steps` turns over a system, a source of input and two sinks.
///
/// `Going` says that `steps` was reached before an end; then the machine may be run further, with the same system,
/// source and sinks. Of input at most 4,096 bytes are read ahead. It takes no memory.
///
/// # Errors
///
/// The fault of the call in which the source or a sink failed, which ends the run; no other part failed in it. Then the
/// sinks have what the run of the definition writes up to that call, and one that failed a front part of what the call
/// writes, but not all. A source that failed lost what the run reads up to that call, and a front part of what the call
/// reads.
pub fn play<M: Machine, S: Source, O: Sink, E: Sink>(
    machine: &mut M,
    steps: u64,
    unix: &mut Unix,
    input: &mut S,
    out: &mut O,
    err: &mut E,
) -> Result<Outcome, IoFault>
    requires going { M.has_ended machine.old ≡ false }
    ensures plays { IfOk result (λ outcome.
        Plays M.turn steps (M.state machine.old) (M.state machine.new)
        (parts unix.old (input_seen S.Source input.old) (output_seen O.Sink out.old)
        (output_seen E.Sink err.old))
        (parts unix.new (input_seen S.Source input.new) (output_seen O.Sink out.new)
        (output_seen E.Sink err.new)) outcome) }
    ensures breaks { IfErr result (λ fault.
        Breaks M.turn steps (M.state machine.old)
        (parts unix.old (input_seen S.Source input.old) (output_seen O.Sink out.old)
        (output_seen E.Sink err.old))
        (parts unix.new (input_seen S.Source input.new) (output_seen O.Sink out.new)
        (output_seen E.Sink err.new)) fault) }
    ensures goes_on { result ≡ Ok Outcome.Going → M.has_ended machine.new ≡ false }
    ensures ended { result ≢ Ok Outcome.Going → M.has_ended machine.new ≡ true }
    ensures never_waits { result ≢ Ok Outcome.Waiting }
    ensures ahead { length unix.new.ahead ≤ 4096 }
{
    let mut joined = join(unix, input, out, err);
    let result = run_joined(machine, steps, &mut joined);
    let Joined {
        unix: _,
        source: _,
        out: _,
        err: _,
        failed: _,
    } = joined;
    result
}

/// The run over a server of joined parts.
fn run_joined<'a, M: Machine, S: Source, O: Sink, E: Sink>(
    machine: &mut M,
    steps: u64,
    joined: &mut Joined<'a, S, O, E>,
) -> Result<Outcome, IoFault>
    requires going { M.has_ended machine.old ≡ false }
    requires sound { joined.old.failed ≡ None }
    ensures plays { IfOk result (λ outcome.
        Plays M.turn steps (M.state machine.old) (M.state machine.new)
        (parts joined.old.unix.now (input_seen S.Source joined.old.source.now)
        (output_seen O.Sink joined.old.out.now) (output_seen E.Sink joined.old.err.now))
        (parts joined.new.unix.now (input_seen S.Source joined.new.source.now)
        (output_seen O.Sink joined.new.out.now) (output_seen E.Sink joined.new.err.now))
        outcome) }
    ensures breaks { IfErr result (λ fault.
        Breaks M.turn steps (M.state machine.old)
        (parts joined.old.unix.now (input_seen S.Source joined.old.source.now)
        (output_seen O.Sink joined.old.out.now) (output_seen E.Sink joined.old.err.now))
        (parts joined.new.unix.now (input_seen S.Source joined.new.source.now)
        (output_seen O.Sink joined.new.out.now) (output_seen E.Sink joined.new.err.now)) fault) }
    ensures goes_on { result ≡ Ok Outcome.Going → M.has_ended machine.new ≡ false }
    ensures ended { result ≢ Ok Outcome.Going → M.has_ended machine.new ≡ true }
    ensures never_waits { result ≢ Ok Outcome.Waiting }
    ensures ahead { length joined.new.unix.now.ahead ≤ 4096 }
    ensures same_unix { joined.new.unix.ghost_name ≡ joined.old.unix.ghost_name }
    ensures same_source { joined.new.source.ghost_name ≡ joined.old.source.ghost_name }
    ensures same_out { joined.new.out.ghost_name ≡ joined.old.out.ghost_name }
    ensures same_err { joined.new.err.ghost_name ≡ joined.old.err.ghost_name }
{
    let result = run(machine, steps, joined);
    joined.unix.is_short_ahead();
    result
}

/// A server of these parts.
fn join<'a, S: Source, O: Sink, E: Sink>(
    unix: &'a mut Unix,
    source: &'a mut S,
    out: &'a mut O,
    err: &'a mut E,
) -> Joined<'a, S, O, E>
    ensures same_unix { (result.unix.ghost_name ≡ unix.entry.ghost_name)
        × (result.unix.now ≡ unix.entry.now) }
    ensures same_source { (result.source.ghost_name ≡ source.entry.ghost_name)
        × (result.source.now ≡ source.entry.now) }
    ensures same_out { (result.out.ghost_name ≡ out.entry.ghost_name)
        × (result.out.now ≡ out.entry.now) }
    ensures same_err { (result.err.ghost_name ≡ err.entry.ghost_name)
        × (result.err.now ≡ err.entry.now) }
    ensures sound { result.failed ≡ None }
{
    Joined {
        unix,
        source,
        out,
        err,
        failed: None,
    }
}
