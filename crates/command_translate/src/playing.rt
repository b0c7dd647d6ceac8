//! The run of a translation whose files are stored first.
ghost use Rattle.std.specs.Prelude.{List};
ghost use Rattle.class_definition.specs.declared.class.Class.{Class};
ghost use Rattle.command_deeds.specs.Ends.{WorksOn, ended};
ghost use Rattle.command_deeds.specs.World.{SameParts, seen};
ghost use Rattle.command_translate.specs.Classes.{HoldAccepted, SpellClasses};
ghost use Rattle.command_translate.specs.Held.{IsDueOfHeldRun};
ghost use Rattle.command_translate.specs.Stores.{IsDueBehind};

use crate::classes::machine_of;
use crate::storing::store_files;
use command_deeds::{Done, Ending, Outside, play_for};
use command_words::NameList;
use nv_outside::{Shelf, Sink, Source};
use nv_translate::NamedFile;
use nv_values::RegionWords;
use std::alloc::Global;
use unix_calls::Unix;

/// Stores the files of a translation, runs its classes over a system for so many instructions in a region of so many words, and keeps files
/// of these names.
pub fn play_stored<H: Shelf, S: Source, O: Sink, E: Sink>(
    alloc: Global,
    words: RegionWords,
    files: &[NamedFile],
    bound: u64,
    unix: Unix,
    keep: &NameList,
    outside: &mut Outside<'_, H, S, O, E>,
) -> Result<Done, Ending>
    requires { HoldAccepted files.now }
    ensures same { SameParts outside.old outside.new }
    ensures works { (classes : List Class) → SpellClasses files.now classes
        → WorksOn (λ w. IsDueBehind files.now
        (IsDueOfHeldRun bound words unix keep.now.names classes w.input.told))
        (seen H.Shelf S.Source O.Sink E.Sink outside.old)
        (seen H.Shelf S.Source O.Sink E.Sink outside.new) (ended result) }
{
    store_files(files, outside.shelf)?;
    let jvm = machine_of(alloc, words, files)?;
    play_for(alloc, bound, jvm, unix, keep, outside)
}
