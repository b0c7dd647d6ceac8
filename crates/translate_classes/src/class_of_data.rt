//! A class of data.
ghost use Rattle.std.specs.Prelude.{◌≡◌, ◌+◌, ◌≤◌, ◌<◌, ◌^◌, ◌∷◌, [], All, IfOk, OnOk, length, map};
ghost use Rattle.translate_classes.specs.Pages.{page_of};
ghost use Rattle.translate_classes.specs.Making.{AddsMethods};
ghost use Rattle.translate_classes.specs.Tables.{references_of};
ghost use Rattle.translate_classes.specs.Data.{IsDataClass, words_plan};

use crate::NoMemory;
use crate::data_naming::named_class;
use crate::filling::{add_fill, add_words};
use crate::names::Names;
use crate::other_class::OtherClass;
use crate::page_data::PageData;
use emit_assembly::References;
use emit_classes::ClassBuilder;
use nv_values::ClassName;
use std::alloc::Global;

/// The class of data of this number as a class file: the text of each of its pages, `words([ILjava/lang/String;)V`, which puts a text's
/// words into a page, and `fill()V`, which does so for each page. `class` is the number of the class in the program and `first_method` that
/// of `words`, the first of its two methods.
///
/// # Errors
/// NoMemory alone.
pub fn data_class(
    alloc: Global,
    main: &ClassName,
    number: u32,
    class: u16,
    first_method: u32,
    pages: &[PageData],
) -> Result<Vec<u8>, NoMemory>
    requires number { number < 2 ^ 15 }
    requires pages { length pages.now ≤ 1024 }
    requires words { All (λ p. length p.words.now ≤ 1024) pages.now }
    ensures { IfOk result (λ bytes. IsDataClass main.now number class first_method
        (map page_of pages.now) bytes.items) }
{
    let name = OtherClass::Data.name(alloc, main, number)?;
    let named = named_class(alloc, name.as_str(), main, pages)?;
    let mut made = named.class;
    let references = with_words(alloc, &mut made, named.names, named.words, first_method)?;
    add_fill(
        alloc,
        &mut made,
        named.texts.as_slice(),
        class,
        first_method,
        &references,
    )?;
    Ok(made.finish(alloc)?)
}

// Adds `words`, which has that slot and is the method of a number, and gives the table for the class's code.
fn with_words(
    alloc: Global,
    class: &mut ClassBuilder,
    names: Names,
    words: u16,
    first_method: u32,
) -> Result<References, NoMemory>
    requires fields { 38 ≤ length names.fields.items }
    requires none { class.old.methods ≡ [] }
    requires room { length class.old.pool ≤ 1215 }
    ensures references { IfOk result (λ references.
        references ≡ references_of names first_method (words ∷ [])) }
    ensures method { OnOk result (AddsMethods class.old class.new
        (words_plan (references_of names first_method (words ∷ [])) ∷ [])) }
    ensures few { OnOk result (length class.new.pool ≤ length class.old.pool + 10) }
{
    let mut methods = Vec::new(alloc);
    methods.push(words)?;
    let references = names.with_methods(first_method, methods);
    add_words(alloc, class, &references)?;
    Ok(references)
}
