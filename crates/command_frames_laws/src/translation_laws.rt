//! What holds of translations with tables of frames. The call here does nothing: its contract is the law.
ghost use Rattle.std.specs.Prelude.{List};
ghost use Rattle.nv_values.specs.Names.{Text};
ghost use Rattle.elf_definition.specs.Start.{Source};
ghost use Rattle.class_definition.specs.declared.class.Class.{Class};
ghost use Rattle.translate_program.specs.declared.named_file.NamedFile.{NamedFile};
ghost use Rattle.nv_translate.specs.Translated.{Translated};
ghost use Rattle.stackmap_laws.specs.Framed.{AreFramed};
ghost use Rattle.command_frames_laws.specs.Alike.{IsAlike};

/// The classes of a translation with tables of frames are accepted, and run as the program that was translated: they make the same
/// calls of the system, with the same bytes, and end in the same way, for all answers of the system and every bound.
pub fn framed_translations_run_alike()
    ensures { (source : Source) (name : Text) (files : List NamedFile)
        (framed : List Class) (t : Translated source name files)
        → AreFramed t.classes framed → IsAlike source framed }
{}
