ghost use Rattle.std.specs.Prelude.{◌≡◌, ◌≤◌, false, None, Some, length};
ghost use Rattle.run_definition.specs.Memory.{Memory};
ghost use Rattle.run_definition.specs.Question.{asked};
ghost use Rattle.run_definition.specs.declared.io_fault.IoFault.{IoFault};
ghost use Rattle.unix_definition.specs.System.{System};
ghost use Rattle.unix_definition.specs.Unix.{reply, unix};
ghost use Rattle.unix_calls.specs.Serving.{Serves};
ghost use Rattle.unix_calls.specs.Failing.{failed_calls};
ghost use Rattle.pipe_net.specs.Ports.{FallsThrough, GoesThrough, KeepsOthers, Waits, may_read_at, may_write_at, parts_of, ready_for};
ghost use Rattle.pipe_net.specs.Views.{ports};

use crate::errors::Errors;
use crate::inlet::Inlet;
use crate::outlet::Outlet;
use crate::pipe::Pipe;
use crate::readiness::{reads_input, writes_output};
use crate::serving::serve_at;
use nv_events::{Call, IoFault, Server, View};
use nv_outside::{Sink, Source};
use unix_calls::Unix;

/// The system of a stage with its input and its outputs, as the server of the stage's program.
///
/// It has no answer to a call that is not ready, and then nothing has changed.
pub(crate) struct Piped<'a, S, O> {
    pub unix: &'a mut Unix,
    pub source: &'a mut S,
    pub before: &'a mut Pipe,
    pub sink: &'a mut O,
    pub behind: &'a mut Pipe,
    pub errors: &'a mut Errors,
    pub inlet: Inlet,
    pub outlet: Outlet,
    /// A pipe that holds so many bytes is full.
    pub c: u32,
    /// The fault of the last call, where it failed.
    pub failed: Option<IoFault>,
}

impl<'a, S: Source, O: Sink> Piped<'a, S, O> {
    /// Answers a call that is ready.
    fn serve_ready<M: View>(&mut self, call: &Call, view: &mut M) -> Result<i32, IoFault>
        ensures served { Serves M.put_at (λ s.
            unix s (asked call.now (M.memory (M.content view.old)))) call.now.number
            (asked call.now (M.memory (M.content view.old))).room
            (parts_of (ports S.Source O.Sink self.old)) (parts_of (ports S.Source O.Sink self.new))
            (M.content view.old) (M.content view.new) result }
        ensures others { KeepsOthers (ports S.Source O.Sink self.old)
            (ports S.Source O.Sink self.new) }
        ensures same_failed { self.new.failed ≡ self.old.failed }
        ensures same_inlet { self.new.inlet ≡ self.old.inlet }
        ensures same_outlet { self.new.outlet ≡ self.old.outlet }
        ensures same_c { self.new.c ≡ self.old.c }
        ensures short { length self.new.unix.now.ahead ≤ 4096 }
        ensures same_unix { self.new.unix.ghost_name ≡ self.old.unix.ghost_name }
        ensures same_source { self.new.source.ghost_name ≡ self.old.source.ghost_name }
        ensures same_before { self.new.before.ghost_name ≡ self.old.before.ghost_name }
        ensures same_sink { self.new.sink.ghost_name ≡ self.old.sink.ghost_name }
        ensures same_behind { self.new.behind.ghost_name ≡ self.old.behind.ghost_name }
        ensures same_errors { self.new.errors.ghost_name ≡ self.old.errors.ghost_name }
    {
        match self.inlet {
            Inlet::Source => serve_at(
                self.outlet,
                self.unix,
                self.source,
                self.sink,
                self.behind,
                self.errors,
                call,
                view,
            ),
            Inlet::Pipe { fed: _ } => serve_at(
                self.outlet,
                self.unix,
                self.before,
                self.sink,
                self.behind,
                self.errors,
                call,
                view,
            ),
        }
    }

    /// Whether a call is ready.
    fn is_ready(&self, call: &Call) -> bool
        ensures { (m : Memory)
            → result ≡ ready_for (ports S.Source O.Sink self.now) (asked call.now m) }
    {
        if reads_input(self.unix, call) {
            self.may_read(call.a2)
        } else if writes_output(self.unix, call) {
            self.may_write()
        } else {
            true
        }
    }

    /// Whether a read of so many bytes of input is ready.
    fn may_read(&self, count: u32) -> bool
        ensures { result ≡ may_read_at self.now.inlet (ports S.Source O.Sink self.now) count }
    {
        match self.inlet {
            Inlet::Source => true,
            Inlet::Pipe { fed } => {
                fed || self.before.has_enough(self.unix.ahead(), count.min(self.c))
            }
        }
    }

    /// Whether a write to output is ready.
    fn may_write(&self) -> bool
        ensures { result ≡ may_write_at self.now.outlet (ports S.Source O.Sink self.now) }
    {
        match self.outlet {
            Outlet::Pipe => self.behind.len() < self.c as usize,
            Outlet::Sink | Outlet::Nowhere => true,
        }
    }
}

impl<'a, S: Source, O: Sink> Server for Piped<'a, S, O> {
    ghost use Rattle.std.proofs.Common.{◌∙◌, refl};

    ghost State = { System };

    ghost reply = { reply };

    ghost told = { λ j. None };

    ghost goes = { λ j q a k. GoesThrough (ports S.Source O.Sink j) q a (ports S.Source O.Sink k) };

    ghost held = { λ j q k. Waits (ports S.Source O.Sink j) q (ports S.Source O.Sink k) };

    ghost fell = { λ j q k. (fault : IoFault) × (k.failed ≡ Some fault)
        × FallsThrough (ports S.Source O.Sink j) q (ports S.Source O.Sink k) fault };

    ghost ready = { λ j. false };

    ghost usable = { λ j. j.failed ≡ None };

    ghost faults = { λ j. failed_calls j.failed };

    ghost keeps = { λ j k. (k.unix.ghost_name ≡ j.unix.ghost_name)
        × (k.source.ghost_name ≡ j.source.ghost_name)
        × (k.before.ghost_name ≡ j.before.ghost_name)
        × (k.sink.ghost_name ≡ j.sink.ghost_name)
        × (k.behind.ghost_name ≡ j.behind.ghost_name)
        × (k.errors.ghost_name ≡ j.errors.ghost_name)
        × (length j.unix.now.ahead ≤ 4096 → length k.unix.now.ahead ≤ 4096)
        × (k.inlet ≡ j.inlet) × (k.outlet ≡ j.outlet) × (k.c ≡ j.c) };

    fn serve<M: View>(&mut self, call: &Call, view: &mut M) -> Result<Option<i32>, IoFault> {
        if !self.is_ready(call) {
            return Ok(None);
        }
        match self.serve_ready(call, view) {
            Ok(value) => Ok(Some(value)),
            Err(fault) => {
                self.failed = Some(fault);
                Err(fault)
            }
        }
    }

    fn laws(&self) {}

    ghost keeps_itself = { λ j. (
      refl,
      refl,
      refl,
      refl,
      refl,
      refl,
      λ h. h,
      refl,
      refl,
      refl,
    ) };

    ghost keeps_on = { λ i j k a b. (
      b.0 ∙ a.0,
      b.1 ∙ a.1,
      b.2 ∙ a.2,
      b.3 ∙ a.3,
      b.4 ∙ a.4,
      b.5 ∙ a.5,
      λ h. b.6 (a.6 h),
      b.7 ∙ a.7,
      b.8 ∙ a.8,
      b.9 ∙ a.9,
    ) };
}
