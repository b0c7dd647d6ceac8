//! What holds of the two commands together. The call here does nothing: its contract is the law.
ghost use Rattle.std.specs.Prelude.{◌≡◌, ℕ, List, Option, Some};
ghost use Rattle.nv_outside.specs.Files.{Files};
ghost use Rattle.nv_values.specs.Names.{Text};
ghost use Rattle.nv_translate.specs.Made.{AreMade};
ghost use Rattle.command_words.specs.declared.named.Named.{Named};
ghost use Rattle.command_words.specs.declared.pages.Pages.{Pages};
ghost use Rattle.command_deeds.specs.Ends.{CommandAnswer, Due};
ghost use Rattle.command_deeds.specs.World.{World};
ghost use Rattle.command_deeds.specs.declared.done.Done.TheVariants.{Good};
ghost use Rattle.command_guest.specs.Imaging.{source_of};
ghost use Rattle.command_translate.specs.Translate.{IsDueOfTranslate};
ghost use Rattle.command_translate_laws.specs.ByName.{StoresTranslation};

/// If `translate` is to answer that all is good, it stores the files of a translation, which stand so behind it, and where they stand `run` of
/// the name is to answer as the program itself ends.
pub fn translations_run_by_name()
    ensures { (input : Named) (name : Text) (pages : Pages) (method_bytes : ℕ) (meter : Option ℕ)
        (files : Files) (file : List ℕ) (w : World) (due : Due) (answer : CommandAnswer)
        → w.shelf.told ≡ Some files → files input.text ≡ Some file
        → IsDueOfTranslate AreMade input name pages method_bytes meter w due
        → due.answer ≡ Some answer → answer.done ≡ Good
        → StoresTranslation meter (source_of pages file) name due }
{}
