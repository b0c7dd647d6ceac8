//! What follows of every call of the program. Each call here does nothing: its contract is the law.

ghost use Rattle.nested_cli.specs.ByName.{FramesAreChecked, TranslationsRunByName};
ghost use Rattle.nested_cli.specs.Laws.{GoIsComplete, RefusalsLeaveAll, RunsTakeNoMemory};

/// What refuses does so before anything is stored, read or written, but for the answer's line.
pub fn refusals_leave_all()
    ensures { RefusalsLeaveAll }
{}

/// If the program's file is there and passes its checks, arguments and files fit, and no call of the outside fails, `go` answers as
/// the program itself ends on the reference machine: it exits and faults only if that does, and its steps are spent only if that
/// has not ended within as many; with `--meter` they are spent exactly there. Or memory runs out.
pub fn go_is_complete()
    ensures { GoIsComplete }
{}

/// Where memory runs out in `go`, `interp` or `run`, nothing was read or written yet; or files are to be kept, and the run was made to
/// its end.
pub fn runs_take_no_memory()
    ensures { RunsTakeNoMemory }
{}

/// If `frames` of a class is answered that all is good, `check` of it is so too, and counts as many classes and methods as the set had
/// that was loaded: over the files that are left, and over later ones that have what was stored, and no class that had no file before. Or a
/// call of the outside fails, or memory runs out.
pub fn frames_are_checked()
    ensures { FramesAreChecked }
{}

/// If `translate` is answered that all is good, `run` of the name answers as the program itself ends on the reference machine, where the
/// files that were stored stand as they were, among whatever others, the region has the words that were told, and arguments and files
/// fit: without a meter if the instructions allow it, and with one exactly at its steps. Or a call of the outside fails, or memory runs
/// out.
pub fn translations_run_by_name()
    ensures { TranslationsRunByName }
{}
