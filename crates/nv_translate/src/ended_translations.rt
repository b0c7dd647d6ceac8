//! How the classes of a translation end over the system. The call here does nothing: its contract is the law.

ghost use Rattle.std.specs.Prelude.{List};
ghost use Rattle.elf_definition.specs.Start.{Source};
ghost use Rattle.class_definition.specs.declared.class.Class.{Class};
ghost use Rattle.class_definition.specs.Linking.{program_of};
ghost use Rattle.nv_translate.specs.Translated.{EndsAlike, RunsAlike};

/// If classes run as a program does, whatever the system answers, they end over the system as the program does, and only if it does: after the
/// same calls, in the same way, and with the system in the same state.
pub fn runs_end_alike()
    ensures { (source : Source) (classes : List Class)
        → RunsAlike source (program_of classes)
        → EndsAlike source classes }
{}
