//! How a linked translation loads. Each call here does nothing: its contract is the law.

ghost use Rattle.std.specs.Prelude.{ℕ, ◌<◌, ◌≤◌, Bool, List, Option};
ghost use Rattle.nv_values.specs.Names.{Text};
ghost use Rattle.elf_definition.specs.Start.{Source, image_of};
ghost use Rattle.class_definition.specs.Linking.{program_of};
ghost use Rattle.emit_layout.specs.Numbers.{main_methods};
ghost use Rattle.translate_program.specs.Classes.{Placed, AreCodeClasses};
ghost use Rattle.translate_program.specs.DataFiles.{class_count, filled_pages, first_method};
ghost use Rattle.translate_program.specs.declared.built.Built.{Built};
ghost use Rattle.translate_program.specs.Files.{need};
ghost use Rattle.translate_program.specs.Translation.{code_methods};
ghost use Rattle.nv_translate.specs.Linked.{IsLinkedBy};
ghost use Rattle.nv_translate.specs.MappedPages.{HasMappedPages};
ghost use Rattle.nv_translate.specs.Loading.{TakesNoPart, LoadsSource};

use emit_program_laws::{images_are_pages, loading_takes, shares_tell_runs};
use method_splitter::share_laws::shares_are_all;

/// A linked translation, with a meter or without, of a program that was accepted makes that program's memory and begins
/// as it does, in a region of as many words as are needed, and no method that takes no part is run meanwhile. That
/// takes some 42,057 instructions a page.
pub fn translations_load()
    ensures { (meter : Option ℕ) (source : Source) (name : Text) (method_bytes : ℕ) (built : Built)
        → HasMappedPages source → (l : IsLinkedBy meter source name method_bytes built)
        → (words m : ℕ) → need (image_of source).mapped ≤ words → TakesNoPart source l.code m
        → LoadsSource meter source l.code (program_of l.classes) words m l.texts
        l.main.runs.now }
{
    shares_are_all();
    shares_tell_runs();
    images_are_pages();
    loading_takes();
}

/// The methods of the classes of code take no part in loading, nor do numbers after those of all methods.
pub fn others_do_not_load()
    ensures code { (source : Source) (code : List Placed) (m : ℕ)
        → main_methods ≤ m → m < code_methods code
        → TakesNoPart source code m }
    ensures behind { (metered : Bool) (source : Source) (method_bytes : ℕ) (code : List Placed) (m : ℕ)
        → AreCodeClasses metered source method_bytes code
        → first_method (code_methods code) (class_count (filled_pages source)) ≤ m
        → TakesNoPart source code m }
{}
