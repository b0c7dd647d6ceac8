ghost use Rattle.std.specs.Prelude.{◌≡◌, ◌≤◌, true, None, Some, length};
ghost use Rattle.nv_outside.specs.Seen.{input_seen, output_seen};
ghost use Rattle.run_definition.specs.declared.io_fault.IoFault.{IoFault};
ghost use Rattle.unix_definition.specs.System.{System};
ghost use Rattle.unix_definition.specs.Unix.{unix, reply};
ghost use Rattle.unix_calls.specs.Serving.{parts, told_by, Goes, Fell, AsSome};
ghost use Rattle.unix_calls.specs.Failing.{failed_calls, fault_of};

use crate::unix::Unix;
use nv_events::{Call, IoFault, Server, View};
use nv_outside::{Sink, Source};

/// A system with its source of input and its two sinks, as the server of a program.
///
/// It always has an answer, up to a call that the outside fails, which is the last. Its state is told where the source
/// and both sinks tell theirs.
pub struct Joined<'a, S, O, E> {
    pub unix: &'a mut Unix,
    pub source: &'a mut S,
    pub out: &'a mut O,
    pub err: &'a mut E,
    /// The fault of the last call, where it failed.
    pub failed: Option<IoFault>,
}

impl<'a, S: Source, O: Sink, E: Sink> Server for Joined<'a, S, O, E> {
    ghost use Rattle.std.proofs.Common.{◌∙◌, refl};

    ghost State = { System };

    ghost reply = { reply };

    ghost told = { λ j. told_by j.unix.now (S.rest j.source.now) (O.taken j.out.now)
        (E.taken j.err.now) };

    ghost goes = { λ j q a k. Goes (λ s. unix s q) q.room
        (parts j.unix.now (input_seen S.Source j.source.now) (output_seen O.Sink j.out.now)
        (output_seen E.Sink j.err.now)) a
        (parts k.unix.now (input_seen S.Source k.source.now) (output_seen O.Sink k.out.now)
        (output_seen E.Sink k.err.now)) };

    ghost held = { λ j q k. ⊥ };

    ghost fell = { λ j q k. (fault : IoFault) × (k.failed ≡ Some fault)
        × Fell fault (λ s. unix s q) q.number q.room
        (parts j.unix.now (input_seen S.Source j.source.now) (output_seen O.Sink j.out.now)
        (output_seen E.Sink j.err.now))
        (parts k.unix.now (input_seen S.Source k.source.now) (output_seen O.Sink k.out.now)
        (output_seen E.Sink k.err.now)) };

    ghost ready = { λ j. true };

    ghost usable = { λ j. j.failed ≡ None };

    ghost faults = { λ j. failed_calls j.failed };

    ghost keeps = { λ j k. (k.unix.ghost_name ≡ j.unix.ghost_name)
        × (k.source.ghost_name ≡ j.source.ghost_name) × (k.out.ghost_name ≡ j.out.ghost_name)
        × (k.err.ghost_name ≡ j.err.ghost_name)
        × (length j.unix.now.ahead ≤ 4096 → length k.unix.now.ahead ≤ 4096) };

    fn serve<M: View>(&mut self, call: &Call, view: &mut M) -> Result<Option<i32>, IoFault> {
        let answer = self.unix.serve(call, view, self.source, self.out, self.err);
        self.failed = fault_of(answer);
        as_some(answer)
    }

    fn laws(&self) {}

    ghost keeps_itself = { λ j. (refl, refl, refl, refl, λ h. h) };

    ghost keeps_on = { λ i j k a b.
        (b.0 ∙ a.0, b.1 ∙ a.1, b.2 ∙ a.2, b.3 ∙ a.3, λ h. b.4 (a.4 h)) };
}

/// The fault of a call that failed.
fn fault_of(answer: Result<i32, IoFault>) -> Option<IoFault>
    ensures { result ≡ fault_of answer }
{
    match answer {
        Ok(_) => None,
        Err(fault) => Some(fault),
    }
}

/// An answer that is there.
fn as_some(answer: Result<i32, IoFault>) -> Result<Option<i32>, IoFault>
    ensures { AsSome answer result }
{
    match answer {
        Ok(value) => Ok(Some(value)),
        Err(fault) => Err(fault),
    }
}
