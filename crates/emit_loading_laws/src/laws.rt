//! What the methods do with which a translated program begins. Each call here does nothing: its contract is the law.

ghost use Rattle.std.specs.Prelude.{ℕ, ◌≤◌, List};
ghost use Rattle.elf_definition.specs.Start.{Source};
ghost use Rattle.elf_image_parts.specs.declared.page_run.PageRun.{PageRun};
ghost use Rattle.emit_loading_laws.specs.Images.{ImageIsPages, IsWhole};
ghost use Rattle.emit_loading_laws.specs.Loaded.{LoadingTakes, SharesAllRuns, TextsTellRuns};
ghost use Rattle.emit_loading_laws.specs.Made.{MemoryIsMade, ProgramsLoad, ProgramsLoadInRuns};
ghost use Rattle.emit_loading_laws.specs.Metered.{MeteredLoadingFollows, MeteredProgramsLoad, SpentLoadingFollows, SpentProgramsEnd};

use emit_paths_laws::laws::code_is_a_path;
use emit_steps::laws::parts_lie_behind_each_other;
use meter_laws::laws::counted_code_is_paid;
use run_simulation_laws::Translation;

/// The code that makes a program's memory makes the pages that the texts tell, with the words that the texts of the classes of data spell, in
/// turns that only move, read no word, make no switch and enter no span.
pub fn memory_is_made()
    ensures { MemoryIsMade }
{
    code_is_a_path();
    parts_lie_behind_each_other();
}

/// From its start a program comes to the loader's call, with the arrays that hold the guest's memory, and asks what the guest asks; by each answer
/// that fits it comes into the method that chooses, if it holds the guest's state, and counts nothing on the way.
pub fn programs_load()
    ensures { ProgramsLoad }
{
    code_is_a_path();
    parts_lie_behind_each_other();
}

/// So does a program with a meter on which a turn at least is put: where it holds the guest's state, the others are left. With none it ends the run
/// in the fault of a spent meter before it asks.
pub fn metered_programs_load()
    ensures enough { MeteredProgramsLoad }
    ensures none { SpentProgramsEnd }
{
    code_is_a_path();
    parts_lie_behind_each_other();
    counted_code_is_paid();
}

/// The memory of a program is pages of words, and the classes of data have those that are not all zero. Classes that have all of them, in order,
/// have no more pages than can be read.
pub fn images_are_pages()
    ensures { (s : Source) → IsWhole s → ImageIsPages s }
{}

/// How many turns it takes to make the memory, by the number of pages. They are some 42,057 for each page.
pub fn loading_takes()
    ensures { LoadingTakes }
{}

/// Loading as the laws of runs want it, of any pair of machines whose guest is the guest machine and whose classes are this program, and of which
/// nothing is counted that loading counts: they come to rest where they have begun.
pub fn programs_load_in_runs<T: Translation>()
    ensures { ProgramsLoadInRuns T.Counted }
{}

/// Loading as the laws of runs with a meter want it: the classes follow the guest with its meter from the start on to where they have begun, or end
/// as a spent meter does.
pub fn metered_loading_follows()
    ensures enough { MeteredLoadingFollows }
    ensures none { SpentLoadingFollows }
{}

/// Runs that are divided into texts of so many runs: the texts tell them, and each tells one at least.
pub fn shares_tell_runs()
    ensures tell { TextsTellRuns }
    ensures all { (size : ℕ) (runs : List PageRun) → 1 ≤ size → SharesAllRuns size runs }
{}
