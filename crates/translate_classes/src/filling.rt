//! The methods of a class of data.
ghost use Rattle.std.specs.Prelude.{◌≡◌, ◌+◌, ◌*◌, ◌<◌, ◌≤◌, true, ◌∷◌, [], All, OnOk, length};
ghost use Rattle.emit_assembly.specs.Assembling.{has_method};
ghost use Rattle.emit_classes.specs.Lawful.{has_text};
ghost use Rattle.translate_classes.specs.Making.{AddsMethods};
ghost use Rattle.translate_classes.specs.Data.{fill_plan, words_plan};

use crate::NoMemory;
use crate::building::put_method;
use emit_assembly::References;
use emit_classes::ClassBuilder;
use emit_limits::slot_laws::loading_takes_few_slots;
use emit_loading::{PageSlot, append_fill, append_words};
use emit_methods_laws::named_code::loading_names_well;
use emit_methods_laws::whole::loading_is_whole;
use std::alloc::Global;

/// Adds `words([ILjava/lang/String;)V`.
pub fn add_words(
    alloc: Global,
    class: &mut ClassBuilder,
    references: &References,
) -> Result<(), NoMemory>
    requires fields { 38 ≤ length references.now.fields }
    requires few { length class.old.methods < 65535 }
    requires room { length class.old.pool + 10 ≤ 65534 }
    ensures few { OnOk result (length class.new.pool ≤ length class.old.pool + 10) }
    ensures method { OnOk result
        (AddsMethods class.old class.new (words_plan references.now ∷ [])) }
{
    let mut code = Vec::new(alloc);
    append_words(&mut code)?;
    loading_names_well();
    loading_is_whole();
    loading_takes_few_slots();
    put_method(
        alloc,
        class,
        "words",
        "([ILjava/lang/String;)V",
        4,
        code.as_slice(),
        references,
    )?;
    Ok(())
}

/// Adds `fill()V`. The class has this number in the program, and its method `words` has the number `words`.
pub fn add_fill(
    alloc: Global,
    class: &mut ClassBuilder,
    texts: &[PageSlot],
    number: u16,
    words: u32,
    references: &References,
) -> Result<(), NoMemory>
    requires fields { 38 ≤ length references.now.fields }
    requires words { has_method references.now words ≡ true }
    requires few { length texts.now ≤ 1024 }
    requires texts { All (λ s. has_text class.old.pool s.slot ≡ true) texts.now }
    requires few_methods { length class.old.methods < 65535 }
    requires room { length class.old.pool + (2 + 2 * length texts.now) ≤ 65534 }
    ensures { OnOk result (AddsMethods class.old class.new
        (fill_plan texts.now number words references.now ∷ [])) }
{
    let mut code = Vec::new(alloc);
    append_fill(texts, number, words, &mut code)?;
    loading_is_whole();
    loading_takes_few_slots();
    put_method(alloc, class, "fill", "()V", 0, code.as_slice(), references)?;
    Ok(())
}
