//! Turns of all stages, round by round, to their ends.

ghost use Rattle.std.specs.Prelude.{◌≡◌, ◌≤◌, ◌<◌, true, false, List, ℕ, OnOk};
ghost use Rattle.nv_outside.specs.Seen.{Seen, input_seen, output_seen};
ghost use Rattle.jvm_definition.specs.Step.{Loaded};
ghost use Rattle.unix_pipe_laws.specs.Pipelines.{Pipeline};
ghost use Rattle.unix_pipe_laws.specs.Alone.{IsFreshPipeline};
ghost use Rattle.pipe_net.specs.Showing.{IsSound, stage_count};
ghost use Rattle.pipe_net.specs.Turning.{turns_left};
ghost use Rattle.pipe_net.specs.Histories.{AllAreOver, ComesOn, EndsSo, HasCome, SomeGoesOn};

use crate::net::Net;
use crate::net_fault::NetFault;
use nv_outside::{Sink, Source};

impl Net {
    /// Runs all stages to their ends, round by round: in each round every stage makes a turn of up to `m` instructions.
    ///
    /// # Errors
    ///
    /// The fault of the turn that failed. Then `out` has a front part of what it was to get.
    pub fn run<S: Source, O: Sink>(
        &mut self,
        m: u64,
        source: &mut S,
        out: &mut O,
    ) -> Result<(), NetFault>
        requires some { 1 ≤ m }
        requires sound { IsSound self.old }
        requires stages { 1 ≤ stage_count self.old }
        ensures ends { (p : Pipeline Loaded) (first first_out : Seen (List ℕ)) → IsFreshPipeline p
            → HasCome p self.old first (input_seen S.Source source.old) first_out
            (output_seen O.Sink out.old)
            → EndsSo p self.new first (input_seen S.Source source.new) first_out
            (output_seen O.Sink out.new) result }
        ensures stages { stage_count self.new ≡ stage_count self.old }
    {
        while !self.is_all_over() {
            self.go_round(m, source, out)?;
        }
        Ok(())
    }

    /// A turn of each stage, some of which is not over.
    fn go_round<S: Source, O: Sink>(
        &mut self,
        m: u64,
        source: &mut S,
        out: &mut O,
    ) -> Result<(), NetFault>
        requires some { 1 ≤ m }
        requires sound { IsSound self.old }
        requires going { SomeGoesOn self.old }
        ensures comes { (p : Pipeline Loaded) (first first_out : Seen (List ℕ)) → IsFreshPipeline p
            → HasCome p self.old first (input_seen S.Source source.old) first_out
            (output_seen O.Sink out.old)
            → ComesOn p self.new first (input_seen S.Source source.new) first_out
            (output_seen O.Sink out.new) result }
        ensures less { OnOk result (turns_left self.new < turns_left self.old) }
        ensures sound { OnOk result (IsSound self.new) }
        ensures stages { stage_count self.new ≡ stage_count self.old }
    {
        for i in 0..self.stages.len() {
            self.turn(i, m, source, out)?;
        }
        Ok(())
    }

    /// Whether all stages have ended, or executed as many instructions as they may.
    fn is_all_over(&self) -> bool
        ensures all { result ≡ true → AllAreOver self.now }
        ensures some { result ≡ false → SomeGoesOn self.now }
    {
        for i in 0..self.stages.len() {
            if !self.is_over(i) {
                return false;
            }
        }
        true
    }
}
