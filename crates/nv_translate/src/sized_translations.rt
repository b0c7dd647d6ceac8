//! How many bytes of code the methods of a translation's spans have, and how few spans there are. Each call here does nothing: its contract is
//! the law.

ghost use Rattle.std.specs.Prelude.{ℕ, Bool, List, Option};
ghost use Rattle.nv_values.specs.Names.{Text};
ghost use Rattle.elf_definition.specs.Start.{Source};
ghost use Rattle.class_definition.specs.Linking.{program_of};
ghost use Rattle.translate_program.specs.Classes.{Placed, AreCodeClasses};
ghost use Rattle.translate_program.specs.declared.built.Built.{Built};
ghost use Rattle.nv_translate.specs.Linked.{IsLinkedBy};
ghost use Rattle.nv_translate.specs.Sizes.{AreLeast, AreSized};

use emit_limits::size_laws::divided_words_keep_to_the_limit;

/// The method of each span of a linked translation has at most as many bytes of code as a method may have.
pub fn translated_spans_keep_to_the_limit()
    ensures { (meter : Option ℕ) (source : Source) (name : Text) (method_bytes : ℕ) (built : Built)
        → (l : IsLinkedBy meter source name method_bytes built)
        → AreSized method_bytes l.code (program_of l.classes) }
{
    divided_words_keep_to_the_limit();
}

/// There are as few spans as there can be, by the weights of words.
pub fn translated_spans_are_least()
    ensures { (metered : Bool) (source : Source) (method_bytes : ℕ) (code : List Placed)
        → AreCodeClasses metered source method_bytes code → AreLeast method_bytes code }
{}
