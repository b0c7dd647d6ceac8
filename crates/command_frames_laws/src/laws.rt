//! What holds of the two commands together. Each call here does nothing: its contract is the law.
ghost use Rattle.std.specs.Prelude.{◌≡◌, List, Some, Ok, All};
ghost use Rattle.nv_outside.specs.Files.{Files};
ghost use Rattle.class_sets.specs.NamedSets.{named_set};
ghost use Rattle.class_sets.specs.declared.version.Version.TheVariants.{V48};
ghost use Rattle.command_frames_laws.specs.StoredSets.{HoldBytes};
ghost use Rattle.command_words.specs.declared.named_class.NamedClass.{NamedClass};
ghost use Rattle.command_deeds.specs.Deeds.{Deed};
ghost use Rattle.command_deeds.specs.Ends.{CommandAnswer, Due};
ghost use Rattle.command_deeds.specs.World.{World};
ghost use Rattle.command_deeds.specs.declared.done.Done.TheVariants.{Good};
ghost use Rattle.command_frames.specs.Frames.{AreFilesOf, IsDueOfFrames};
ghost use Rattle.command_frames_laws.specs.Counted.{IsCounted, StandIn, StoresSet};
ghost use Rattle.command_frames_laws.specs.Stored.{HasOwnNames, HaveStored, IsStoredIn, Leave, Passes};

/// What `frames` stores for a class passes `check`: over the files that it leaves; over all later ones that have what was stored, and
/// no class that had no file before; and over any that have it, where each class had been loaded by its own name.
pub fn stored_sets_are_checked()
    ensures left { (class : NamedClass) (files later : Files) (deeds : List Deed) → HoldBytes files
        → AreFilesOf class files (Ok deeds) → Leave files deeds later → Passes class later }
    ensures later { (class : NamedClass) (files later : Files) (deeds : List Deed) → HoldBytes files
        → AreFilesOf class files (Ok deeds) → HaveStored files deeds later → Passes class later }
    ensures alone { (class : NamedClass) (files later : Files) (deeds : List Deed)
        → HoldBytes files → AreFilesOf class files (Ok deeds)
        → HasOwnNames (named_set V48 files class.name) → All (IsStoredIn later) deeds
        → Passes class later }
{}

/// If `frames` is to answer that all is good, it stores the set of its class. Then `check` is to answer so, and to count as many classes
/// and methods as that set has: over the files that are left, and over later ones that have what was stored and no new class.
pub fn stored_sets_are_counted()
    ensures stored { (class : NamedClass) (files : Files) (w : World) (due : Due)
        (answer : CommandAnswer) → w.shelf.told ≡ Some files → IsDueOfFrames class w due
        → due.answer ≡ Some answer → answer.done ≡ Good → StoresSet class files due }
    ensures counted { (class : NamedClass) (files later : Files) (due : Due)
        (s : StoresSet class files due) → HoldBytes files → StandIn files s.deeds later
        → IsCounted class later s.classes }
{}
