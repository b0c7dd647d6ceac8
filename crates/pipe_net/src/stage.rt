ghost use Rattle.std.specs.Prelude.{◌≡◌, ◌+◌, ◌<◌, ◌≤◌, ◌^◌, [], false, length, IfOk};
ghost use Rattle.nv_outside.specs.Seen.{input_seen, output_seen};
ghost use Rattle.run_definition.specs.declared.outcome.Outcome.TheVariants as outcomes;
ghost use Rattle.jvm_machine.specs.Machine.{has_ended};
ghost use Rattle.jvm_machine.specs.Counting.{count_of};
ghost use Rattle.pipe_net.specs.Executing.{Executes, GoesOnBehind};
ghost use Rattle.pipe_net.specs.Views.{scene_of};
ghost use Rattle.pipe_net.specs.Settling.{Settles, net_fault_of, over_by, turn_of};

use crate::errors::Errors;
use crate::executed::{Executed, Stop};
use crate::execution::execute;
use crate::net_fault::NetFault;
use crate::outlet::Outlet;
use crate::pipe::Pipe;
use crate::piped::Piped;
use crate::terms::Terms;
use crate::turn::Turn;
use jvm_machine::Jvm;
use nv_events::{IoFault, Outcome};
use nv_outside::{Sink, Source};
use std::alloc::Global;
use unix_calls::Unix;

/// A class set in its machine, on a system of its own.
#[derive(Drop)]
pub(crate) struct Stage {
    pub(crate) jvm: Jvm,
    pub(crate) unix: Unix,
    pub(crate) errors: Errors,
    /// How it ended, and `Going` where it has not.
    pub(crate) outcome: Outcome,
}

impl Stage {
    /// A stage before its first instruction.
    pub(crate) fn new(alloc: Global, jvm: Jvm, unix: Unix) -> Stage
        ensures jvm { result.jvm ≡ jvm }
        ensures unix { result.unix ≡ unix }
        ensures no_errors { result.errors.bytes.items ≡ [] }
        ensures no_faults { result.errors.faults ≡ 0 }
        ensures going { result.outcome ≡ outcomes.Going }
    {
        Stage {
            jvm,
            unix,
            errors: Errors::new(alloc),
            outcome: Outcome::Going,
        }
    }

    /// Whether it has ended, or executed as many instructions as it may.
    pub(crate) fn is_over(&self, bound: u64) -> bool
        ensures { result ≡ over_by bound self.now.outcome (count_of self.now.jvm) }
    {
        !matches!(self.outcome, Outcome::Going) || self.jvm.count() >= bound
    }

    /// Executes instructions on these terms, between a source and a sink, and the pipes before it and after it.
    ///
    /// # Errors
    ///
    /// The fault of a call that failed.
    pub(crate) fn execute<S: Source, O: Sink>(
        &mut self,
        terms: Terms,
        source: &mut S,
        before: &mut Pipe,
        sink: &mut O,
        behind: &mut Pipe,
    ) -> Result<Executed, IoFault>
        requires going { has_ended self.old.jvm ≡ false }
        requires short { length self.old.unix.ahead ≤ 4096 }
        requires within { count_of self.old.jvm + terms.most < 2 ^ 64 }
        ensures executes { Executes terms.most
            (scene_of terms self.old (input_seen S.Source source.old) before.old
            (output_seen O.Sink sink.old) behind.old)
            (scene_of terms self.new (input_seen S.Source source.new) before.new
            (output_seen O.Sink sink.new) behind.new) result }
        ensures count { IfOk result (λ executed.
            count_of self.new.jvm ≡ count_of self.old.jvm + executed.count) }
        ensures goes_on { IfOk result (λ executed.
            GoesOnBehind executed.stop (has_ended self.new.jvm)) }
        ensures short { length self.new.unix.ahead ≤ 4096 }
        ensures same_outcome { self.new.outcome ≡ self.old.outcome }
    {
        let mut server = Piped {
            unix: &mut self.unix,
            source,
            before,
            sink,
            behind,
            errors: &mut self.errors,
            inlet: terms.inlet,
            outlet: terms.outlet,
            c: terms.c,
            failed: None,
        };
        let executed = execute(&mut self.jvm, terms.most, &mut server);
        let Piped {
            unix: _,
            source: _,
            before: _,
            sink: _,
            behind: _,
            errors: _,
            inlet: _,
            outlet: _,
            c: _,
            failed: _,
        } = server;
        executed
    }

    /// What a turn comes to in which these instructions were executed.
    pub(crate) fn settle(
        &mut self,
        executed: Result<Executed, IoFault>,
        outlet: Outlet,
    ) -> Result<Turn, NetFault>
        ensures settles { Settles outlet executed self.old.outcome self.new.outcome
            self.old.errors.faults result }
        ensures same_jvm { self.new.jvm ≡ self.old.jvm }
        ensures same_unix { self.new.unix ≡ self.old.unix }
        ensures same_errors { self.new.errors ≡ self.old.errors }
    {
        match executed {
            Ok(executed) => {
                if let Stop::Ended(outcome) = executed.stop {
                    self.outcome = outcome;
                }
                Ok(turn_of(executed.count))
            }
            Err(fault) => Err(self.net_fault(fault, outlet)),
        }
    }

    /// The fault of a net in which a call of this stage failed.
    fn net_fault(&self, fault: IoFault, outlet: Outlet) -> NetFault
        ensures { result ≡ net_fault_of fault outlet self.now.errors.faults }
    {
        match (fault, outlet) {
            (IoFault::ReadFault, _) => NetFault::Io(fault),
            (IoFault::WriteFault, Outlet::Sink) if self.errors.faults == 0 => NetFault::Io(fault),
            (IoFault::WriteFault, _) => NetFault::NoMemory,
        }
    }
}

/// The turn of a stage that was not over before it, in which it executed so many instructions.
fn turn_of(count: u64) -> Turn
    ensures { result ≡ turn_of count }
{
    if count == 0 {
        Turn::Blocked
    } else {
        Turn::Ran(count)
    }
}
