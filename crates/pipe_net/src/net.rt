ghost use Rattle.std.specs.Prelude.{◌≡◌, ◌≤◌, ◌<◌, ◌+◌, ◌^◌, ℕ, suc, List, Some, IfOk, OnOk, false, length, slice_get};
ghost use Rattle.nv_outside.specs.Seen.{input_seen, output_seen};
ghost use Rattle.unix_calls.specs.Drawing.{known};
ghost use Rattle.jvm_definition.specs.Step.{Loaded};
ghost use Rattle.unix_pipe_laws.specs.Pipelines.{Pipeline, PipeNet};
ghost use Rattle.unix_pipe_laws.specs.Turns.{net_at_start};
ghost use Rattle.jvm_machine.specs.Machine.{has_ended};
ghost use Rattle.jvm_machine.specs.Counting.{count_of};
ghost use Rattle.unix_calls.specs.Starting.{IsFresh};
ghost use Rattle.pipe_net.specs.declared.stage.Stage.{Stage};
ghost use Rattle.pipe_net.specs.Adding.{AddsStage};
ghost use Rattle.pipe_net.specs.Moving.{AreTerms, MovesStage, inlet_of, outlet_of, over_in};
ghost use Rattle.pipe_net.specs.Showing.{AreFresh, IsPipelineOf, IsSound, Shows, stage_count};
ghost use Rattle.pipe_net.specs.Turning.{CountsFaults, LeavesTurns, TurnGives, errors_of, outcomes_of, turns_left};

use crate::NoMemory;
use crate::inlet::Inlet;
use crate::net_fault::NetFault;
use crate::outlet::Outlet;
use crate::pipe::Pipe;
use crate::stage::Stage;
use crate::terms::Terms;
use crate::turn::Turn;
use jvm_machine::Jvm;
use nv_events::Outcome;
use nv_outside::{Sink, Source};
use std::alloc::Global;
use unix_calls::Unix;

/// Class sets on systems of their own that run in turns. What one of them, a stage, writes to output goes through a pipe, and is the next
/// one's input.
///
/// A contract sees it through the model that it shows (`Shows`).
#[derive(Drop)]
pub struct Net {
    pub(crate) stages: Vec<Stage>,
    /// The pipe before each stage, and one after the last. The first stage does not read its pipe, and the last one writes none.
    pipes: Vec<Pipe>,
    c: u32,
    bound: u64,
}

impl Net {
    /// Stages before their first instruction. `c` bytes make a pipe full, and no read of input gives more. Each stage executes at most
    /// `bound` instructions.
    ///
    /// # Errors
    ///
    /// NoMemory where there is none for the pipes.
    pub fn new(alloc: Global, stages: Vec<(Jvm, Unix)>, c: u32, bound: u64) -> Result<Net, NoMemory>
        requires some { 2 ≤ length stages.items }
        requires few { length stages.items ≤ 8 }
        requires holds { 1 ≤ c }
        requires small { c ≤ 65536 }
        requires fresh { AreFresh stages.items }
        ensures shows { IfOk result (λ net. (p : Pipeline Loaded)
            → IsPipelineOf stages.items c bound p → Shows net p.input p (net_at_start p)) }
        ensures sound { IfOk result (λ net. IsSound net) }
        ensures stages { IfOk result (λ net. stage_count net ≡ length stages.items) }
    {
        let mut net = Net {
            stages: Vec::with_capacity(alloc, stages.len())?,
            pipes: Vec::with_capacity(alloc, stages.len() + 1)?,
            c,
            bound,
        };
        net.pipes.push(Pipe::new(alloc, c)?)?;
        for (jvm, unix) in stages {
            net.add(alloc, jvm, unix)?;
        }
        Ok(net)
    }

    /// A turn of stage `i`, counted from 0: it executes up to `m` instructions, and stops before a call that is not ready. `source` is the
    /// input of the first stage, and `out` takes the output of the last one.
    ///
    /// # Errors
    ///
    /// `Io` where the source or the sink failed in this turn, and `NoMemory` where there is none for what the stage writes into its pipe or
    /// to error output. Then what it did before stays done, `out` has a front part of what it was to get, and no further turn may be made.
    pub fn turn<S: Source, O: Sink>(
        &mut self,
        i: usize,
        m: u64,
        source: &mut S,
        out: &mut O,
    ) -> Result<Turn, NetFault>
        requires within { i < stage_count self.old }
        requires some { 1 ≤ m }
        requires sound { IsSound self.old }
        ensures gives { (p : Pipeline Loaded) (model : PipeNet Loaded)
            → Shows self.old (known (S.rest source.old)) p model
            → TurnGives p model i m self.old self.new (input_seen S.Source source.old)
            (input_seen S.Source source.new) (output_seen O.Sink out.old)
            (output_seen O.Sink out.new) result }
        ensures counts { CountsFaults (input_seen S.Source source.old)
            (input_seen S.Source source.new) (output_seen O.Sink out.old)
            (output_seen O.Sink out.new) result }
        ensures left { LeavesTurns (turns_left self.old) (turns_left self.new) result }
        ensures sound { OnOk result (IsSound self.new) }
        ensures stages { stage_count self.new ≡ stage_count self.old }
    {
        if self.is_over(i) {
            return Ok(Turn::Over);
        }
        let terms = self.terms(i, m);
        turn_of_stage(
            self.stages.as_mut_slice(),
            self.pipes.as_mut_slice(),
            i,
            terms,
            source,
            out,
        )
    }

    /// How a stage ended: `Going` where it has not.
    pub fn outcome(&self, i: usize) -> Outcome
        requires { i < stage_count self.now }
        ensures at { slice_get (outcomes_of self.now) i ≡ Some result }
        ensures shown { (left : List ℕ) (p : Pipeline Loaded) (model : PipeNet Loaded)
            → Shows self.now left p model → IsSound self.now
            → result ≡ (model.stage i).outcome }
    {
        self.stages[i].outcome
    }

    /// What a stage wrote to error output.
    pub fn errors(&self, i: usize) -> &[u8]
        requires { i < stage_count self.now }
        ensures at { slice_get (errors_of self.now) i ≡ Some result.now }
        ensures shown { (left : List ℕ) (p : Pipeline Loaded) (model : PipeNet Loaded)
            → Shows self.now left p model → IsSound self.now
            → result.now ≡ (model.stage i).system.console.error_output }
    {
        self.stages[i].errors.bytes.as_slice()
    }

    /// One more stage, with the pipe after it.
    fn add(&mut self, alloc: Global, jvm: Jvm, unix: Unix) -> Result<(), NoMemory>
        requires some { 1 ≤ self.old.c }
        requires fresh { IsFresh unix }
        ensures { OnOk result (AddsStage self.old self.new jvm unix) }
    {
        let mut unix = unix;
        unix.limit_reads(self.c);
        self.stages.push(Stage::new(alloc, jvm, unix))?;
        self.pipes.push(Pipe::new(alloc, self.c)?)?;
        Ok(())
    }

    /// Whether a stage has ended, or executed as many instructions as it may.
    pub(crate) fn is_over(&self, i: usize) -> bool
        requires { i < stage_count self.now }
        ensures { result ≡ over_in self.now.bound self.now.stages.items i }
    {
        self.stages[i].is_over(self.bound)
    }

    /// On which terms a stage makes a turn.
    fn terms(&self, i: usize, m: u64) -> Terms
        requires within { i < stage_count self.now }
        requires going { over_in self.now.bound self.now.stages.items i ≡ false }
        ensures are { AreTerms self.now i m result }
        ensures fits { self.now.bound < 2 ^ 64 }
    {
        Terms {
            most: m.min(self.bound - self.stages[i].jvm.count()),
            inlet: self.inlet(i),
            outlet: self.outlet(i),
            c: self.c,
        }
    }

    /// Where the input of a stage comes from.
    fn inlet(&self, i: usize) -> Inlet
        requires { i < stage_count self.now }
        ensures { result ≡ inlet_of self.now.bound self.now.stages.items i }
    {
        if i == 0 {
            Inlet::Source
        } else {
            Inlet::Pipe {
                fed: self.is_over(i - 1),
            }
        }
    }

    /// Where its output goes.
    fn outlet(&self, i: usize) -> Outlet
        requires { i < stage_count self.now }
        ensures { result ≡ outlet_of self.now.bound self.now.stages.items i }
    {
        if i + 1 == self.stages.len() {
            Outlet::Sink
        } else if self.is_over(i + 1) {
            Outlet::Nowhere
        } else {
            Outlet::Pipe
        }
    }
}

/// A turn of stage `i`, which is not over, on these terms.
fn turn_of_stage<S: Source, O: Sink>(
    stages: &mut [Stage],
    pipes: &mut [Pipe],
    i: usize,
    terms: Terms,
    source: &mut S,
    out: &mut O,
) -> Result<Turn, NetFault>
    requires within { i < length stages.old }
    requires pipes { length pipes.old ≡ suc (length stages.old) }
    requires going { (x : Stage) → slice_get stages.old i ≡ Some x → has_ended x.jvm ≡ false }
    requires short { (x : Stage) → slice_get stages.old i ≡ Some x
        → length x.unix.ahead ≤ 4096 }
    requires few { (x : Stage) → slice_get stages.old i ≡ Some x
        → count_of x.jvm + terms.most < 2 ^ 64 }
    ensures { MovesStage terms i stages.old stages.new pipes.old pipes.new
        (input_seen S.Source source.old) (input_seen S.Source source.new)
        (output_seen O.Sink out.old) (output_seen O.Sink out.new) result }
{
    let (front, back) = pipes.split_at_mut(i + 1);
    let stage = &mut stages[i];
    let executed = stage.execute(terms, source, &mut front[i], out, &mut back[0]);
    stage.settle(executed, terms.outlet)
}
