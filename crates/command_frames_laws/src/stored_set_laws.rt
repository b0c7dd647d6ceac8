//! What holds of sets that are stored. Each call here does nothing: its contract is the law.
ghost use Rattle.std.specs.Prelude.{◌≡◌, ℕ, List, None, All, map};
ghost use Rattle.std.specs.List.{AllZip};
ghost use Rattle.nv_outside.specs.Files.{Files};
ghost use Rattle.class_names.specs.Kept.{IsClass};
ghost use Rattle.class_definition.specs.LinkFault.{link_fault};
ghost use Rattle.class_definition.specs.declared.framed_class.FramedClass.{FramedClass};
ghost use Rattle.class_definition.specs.FramedClassFile.{SpellsFramed};
ghost use Rattle.class_sets.specs.NamedSets.{named_set};
ghost use Rattle.class_sets.specs.NamedKept.{AreKept};
ghost use Rattle.class_sets.specs.declared.members.Members.{Members};
ghost use Rattle.class_sets.specs.declared.named_set.NamedSet.TheVariants.{Classes};
ghost use Rattle.class_sets.specs.declared.version.Version.{Version};
ghost use Rattle.class_sets.specs.declared.version.Version.TheVariants.{V48, V51};
ghost use Rattle.stackmap_laws.specs.Framed.{AreFramed};
ghost use Rattle.stackmap_maker.specs.Refusals.{class_without_tables};
ghost use Rattle.command_frames_laws.specs.StoredSets.{AllSet, AreStored, HoldBytes, IsFile, IsOwnName, framed_members};

/// Where the classes of a set of version 48.0 are stored with tables of frames, each under the name by which it was loaded, the same
/// name gives the set of these classes, of version 51.0: in the same order, with their names and tables.
pub fn stored_sets_are_loaded()
    ensures { (files later : Files) (name : List ℕ) (members : Members)
        (framed : List FramedClass) (stored : List (List ℕ))
        → named_set V48 files name ≡ Classes members → All IsClass members.classes
        → AreFramed members.classes (map class_without_tables framed) → AllZip SpellsFramed stored framed
        → AreStored files members stored later
        → named_set V51 later name ≡ Classes (framed_members members.names framed) }
{}

/// The files that come of setting the files of a set's classes, one after the other, are such files.
pub fn set_files_are_stored()
    ensures { (version : Version) (files later : Files) (name : List ℕ) (members : Members)
        (stored : List (List ℕ)) → named_set version files name ≡ Classes members
        → AllSet files members.names stored later → AreStored files members stored later }
{}

/// If classes link, and each was loaded by its own name, no other file matters.
pub fn linked_sets_stand_alone()
    ensures { (version : Version) (files later : Files) (name : List ℕ) (members : Members)
        (stored : List (List ℕ)) → named_set version files name ≡ Classes members
        → link_fault members.classes ≡ None
        → AllZip IsOwnName members.names members.classes
        → AllZip (IsFile later) members.names stored → AreStored files members stored later }
{}

/// The classes of a set of files of bytes keep the rules of the format.
pub fn read_sets_keep_the_rules()
    ensures { (version : Version) (files : Files) (name : List ℕ) (members : Members)
        → HoldBytes files → named_set version files name ≡ Classes members
        → AreKept version members }
{}
