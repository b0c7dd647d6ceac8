//! What holds of a program's runs, wherever its arrays are. Each call here does nothing: its
//! contract is the law.

ghost use Rattle.std.specs.Prelude.{◌≡◌};
ghost use Rattle.run_definition.specs.Answer.{next_answer};
ghost use Rattle.nv_events.specs.Laws.{GivesFitting};
ghost use Rattle.jvm_definition.specs.Values.{no_arrays};
ghost use Rattle.jvm_definition.specs.Program.{Program};
ghost use Rattle.jvm_definition.specs.Step.{jvm_start};
ghost use Rattle.jvm_definition.specs.Again.{again};
ghost use Rattle.jvm_run_laws.specs.Laws.{RunsDoNotSeePlaces, RunsBeginAfresh};
ghost use Rattle.jvm_run_laws.specs.Laws.{FollowedAgain, LeftHeapsAreFree, RunsLeaveHeaps};
ghost use Rattle.jvm_run_laws.specs.Laws.{RunsNeedNoFrameBelow, FollowedWithoutFrameBelow};
ghost use Rattle.jvm_run_laws.specs.Laws.{SomeFrameStandsNowhere};

use nv_events::{Machine, Server};

/// Whatever the program, typed or not: no instruction tells one place of the heap from another.
/// After other arrays, with room for these in addition, it asks the same questions and ends in the
/// same way, for lack of room (trap 6) too.
pub fn runs_do_not_see_places<V: Server>()
    ensures served { RunsDoNotSeePlaces V.reply }
    ensures listed { RunsDoNotSeePlaces next_answer }
{}

/// A reset is a fresh start. Once the fields are 0 and null again, a run asks what the first run
/// asks and ends as it does: arrays that are there take room, and do nothing else. Over no arrays
/// this is the start itself.
pub fn runs_begin_afresh<V: Server>()
    ensures served { RunsBeginAfresh V.reply }
    ensures listed { RunsBeginAfresh next_answer }
    ensures first { (program : Program) → again program no_arrays ≡ jvm_start program }
{}

/// A machine that runs as the program does from its start, both ways and within the same allowance,
/// runs as it does after each reset.
pub fn programs_are_followed_again<G: Machine, V: Server>()
    ensures served { FollowedAgain G.turn V.reply }
    ensures listed { FollowedAgain G.turn next_answer }
{}

/// Runs, one after the other, leave a heap over which a run begins afresh.
pub fn left_heaps_are_free()
    ensures { LeftHeapsAreFree }
{}

/// Runs over any system whose answers fit leave what runs over its answers leave.
pub fn runs_leave_heaps<V: Server>()
    requires fitting { GivesFitting V.reply }
    ensures { RunsLeaveHeaps V.reply }
{}

/// A frame to which nothing returns is not missed. If runs never trap above a frame that could not
/// go on, none returns to it, and they are the same without it.
pub fn runs_need_no_frame_below<V: Server>()
    ensures served { RunsNeedNoFrameBelow V.reply }
    ensures listed { RunsNeedNoFrameBelow next_answer }
    ensures some { SomeFrameStandsNowhere }
{}

/// A machine that never traps, and runs as the program does above such a frame, runs as it does
/// without it.
pub fn programs_are_followed_without_a_frame_below<G: Machine, V: Server>()
    ensures served { FollowedWithoutFrameBelow G.turn V.reply }
    ensures listed { FollowedWithoutFrameBelow G.turn next_answer }
{}
