//! What a machine finds of a translation: its classes are accepted, and they are those that it loads by their name. Each call here does
//! nothing: its contract is the law.

ghost use Rattle.std.specs.Prelude.{◌≡◌, ℕ, Option};
ghost use Rattle.nv_outside.specs.Files.{Files};
ghost use Rattle.nv_values.specs.Names.{Text, IsClassName};
ghost use Rattle.elf_definition.specs.Start.{Source};
ghost use Rattle.class_sets.specs.declared.loaded.Loaded.TheVariants.{Classes};
ghost use Rattle.class_sets.specs.ClassSets.{class_set};
ghost use Rattle.translate_program.specs.declared.built.Built.{Built};
ghost use Rattle.translate_program.specs.Translation.{IsTranslationBy};
ghost use Rattle.nv_translate.specs.Linked.{IsLinkedBy};
ghost use Rattle.nv_translate.specs.AcceptedCode.{HasAcceptedCode};
ghost use Rattle.nv_translate.specs.Accepted.{AreAccepted};
ghost use Rattle.nv_translate.specs.Translated.{AreStored};

use crate::linked_translations::translations_link;
use crate::translated_types::translations_are_typed;

/// The classes of a translation, with a meter or without, of a program that was accepted link, and each method of theirs is typed. There are such
/// classes.
pub fn translations_are_accepted()
    ensures { (meter : Option ℕ) (source : Source) (name : Text) (method_bytes : ℕ) (built : Built)
        → HasAcceptedCode source → IsClassName name
        → IsTranslationBy meter source name method_bytes built
        → AreAccepted meter source name method_bytes built }
{
    translations_link();
    translations_are_typed();
}

/// If its files are stored, they are the classes that are loaded by the name of the main class, whatever other files are there.
pub fn translations_are_sets()
    ensures { (meter : Option ℕ) (source : Source) (name : Text) (method_bytes : ℕ) (built : Built)
        (files : Files)
        → HasAcceptedCode source → IsClassName name
        → IsTranslationBy meter source name method_bytes built
        → (l : IsLinkedBy meter source name method_bytes built) → AreStored files built.files.items
        → class_set files name ≡ Classes l.classes }
{}
