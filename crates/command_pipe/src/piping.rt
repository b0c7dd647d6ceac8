ghost use Rattle.std.specs.Prelude.{◌≡◌, ◌≤◌, List, length, slice_get, true};
ghost use Rattle.command_words.specs.declared.named_class.NamedClass as class;
ghost use Rattle.command_words.specs.Limits.{AreStages};
ghost use Rattle.pipe_net.specs.Showing.{stage_count};
ghost use Rattle.pipe_net.specs.Turning.{errors_of, outcomes_of};
ghost use Rattle.command_deeds.specs.Ends.{Comes, Ends, ended};
ghost use Rattle.command_deeds.specs.Line.{pieces_joined};
ghost use Rattle.command_deeds.specs.World.{SameParts, Writes, output_seen, seen};
ghost use Rattle.command_deeds.specs.declared.ending.Ending.TheVariants.{Stopped};
ghost use Rattle.command_pipe.specs.Pipe.{IsDueOfPipe, IsDueOfSets, ended_so, net_stop};
ghost use Rattle.command_pipe.specs.Sets.{AreStagesOf, sets_of};

use crate::launch::PipeLaunch;
use crate::loading::load_stages;
use command_deeds::{Done, Ending, Outside, StageOutcomes, Stop, write_text};
use command_words::NamedClass;
use jvm_machine::Jvm;
use nv_events::Outcome;
use nv_outside::{Failed, Shelf, Sink, Source};
use pipe_net::{Net, NetFault};
use std::alloc::Global;
use unix_calls::Unix;

/// The instructions of a turn, at most.
const TURN: u64 = 65_536;

/// Loads the sets of these classes, links them and verifies them, and runs them to their ends with a pipe between each two; then writes what
/// they wrote to error output, one after the other.
pub fn pipe<H: Shelf, S: Source, O: Sink, E: Sink>(
    alloc: Global,
    classes: &[NamedClass],
    launch: &PipeLaunch,
    outside: &mut Outside<'_, H, S, O, E>,
) -> Result<Done, Ending>
    requires stages { AreStages classes.now }
    requires disk { launch.now.disk ≤ 65536 }
    ensures ends { Ends H.Shelf S.Source O.Sink E.Sink (IsDueOfPipe classes.now launch.now)
        outside.old outside.new result }
{
    let stages = load_stages(alloc, classes, launch, outside.shelf)?;
    run_stages(alloc, stages, launch, outside)
}

/// Runs stages to their ends.
fn run_stages<H: Shelf, S: Source, O: Sink, E: Sink>(
    alloc: Global,
    stages: Vec<(Jvm, Unix)>,
    launch: &PipeLaunch,
    outside: &mut Outside<'_, H, S, O, E>,
) -> Result<Done, Ending>
    requires several { 2 ≤ length stages.items }
    requires few { length stages.items ≤ 8 }
    requires made { (classes : List class.NamedClass)
        × AreStagesOf launch.now classes stages.items }
    ensures same { SameParts outside.old outside.new }
    ensures comes { (classes : List class.NamedClass) → AreStagesOf launch.now classes stages.items
        → Comes true (IsDueOfSets classes launch.now (sets_of stages.items))
        (seen H.Shelf S.Source O.Sink E.Sink outside.old)
        (seen H.Shelf S.Source O.Sink E.Sink outside.new) (ended result) }
{
    let count = stages.len();
    let mut net = Net::new(alloc, stages, launch.size.get(), launch.steps)?;
    if let Err(fault) = net.run(TURN, outside.input, outside.out) {
        return Err(ending_of(fault));
    }
    write_errors(&net, count, outside.err)?;
    Ok(Done::Piped(outcomes(&net, count)))
}

/// How a command ends in whose pipeline a turn failed.
fn ending_of(fault: NetFault) -> Ending
    ensures { result ≡ Stopped (net_stop fault) }
{
    match fault {
        NetFault::Io(fault) => Ending::from(fault),
        NetFault::NoMemory => Ending::Stopped(Stop::NoMemory),
    }
}

/// Writes what each stage wrote to error output. Takes no memory.
fn write_errors<E: Sink>(net: &Net, count: usize, err: &mut E) -> Result<(), Failed>
    requires all { stage_count net.now ≡ count }
    ensures writes { Writes (output_seen E.Sink err.old) (output_seen E.Sink err.new)
        (pieces_joined (errors_of net.now)) result }
{
    for i in 0..count {
        write_text(err, net.errors(i))?;
    }
    Ok(())
}

/// How the stages ended.
fn outcomes(net: &Net, count: usize) -> StageOutcomes
    requires all { stage_count net.now ≡ count }
    requires few { count ≤ 8 }
    ensures { result ≡ ended_so (outcomes_of net.now) }
{
    StageOutcomes {
        stages: [
            outcome_at(net, count, 0),
            outcome_at(net, count, 1),
            outcome_at(net, count, 2),
            outcome_at(net, count, 3),
            outcome_at(net, count, 4),
            outcome_at(net, count, 5),
            outcome_at(net, count, 6),
            outcome_at(net, count, 7),
        ],
    }
}

/// How a stage ended, if there is one of this number.
fn outcome_at(net: &Net, count: usize, i: usize) -> Option<Outcome>
    requires all { stage_count net.now ≡ count }
    ensures { result ≡ slice_get (outcomes_of net.now) i }
{
    if i < count {
        Some(net.outcome(i))
    } else {
        None
    }
}
