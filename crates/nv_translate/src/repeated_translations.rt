//! That a translation runs again as it ran first. The call here does nothing: its contract is the law.

ghost use Rattle.std.specs.Prelude.{List};
ghost use Rattle.elf_definition.specs.Start.{Source};
ghost use Rattle.class_definition.specs.declared.class.Class.{Class};
ghost use Rattle.class_definition.specs.Linking.{Accepted, program_of};
ghost use Rattle.nv_translate.specs.Translated.{RunsAgain, RunsAlike};

use jvm_run_laws::laws::left_heaps_are_free;

/// A reset is a fresh start. If classes run as a program does, they do so again once the fields of the main class are 0 and null again, over
/// whatever arrays the runs before have left, and in every region that has room beside these.
pub fn translations_run_again()
    ensures { (source : Source) (classes : List Class)
        → Accepted classes → RunsAlike source (program_of classes)
        → RunsAgain source (program_of classes) }
{
    left_heaps_are_free();
}
