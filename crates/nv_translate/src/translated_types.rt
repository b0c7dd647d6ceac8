//! What the verifier finds of a translation. The call here does nothing: its contract is the law.

ghost use Rattle.std.specs.Prelude.{ℕ, Option};
ghost use Rattle.nv_values.specs.Names.{Text};
ghost use Rattle.elf_definition.specs.Start.{Source};
ghost use Rattle.jvm_definition.specs.Typing.{AllTyped};
ghost use Rattle.class_definition.specs.Linking.{program_of};
ghost use Rattle.translate_program.specs.declared.built.Built.{Built};
ghost use Rattle.nv_translate.specs.WholeCode.{HasWholeCode};
ghost use Rattle.nv_translate.specs.Linked.{IsLinkedBy};

use emit_types_laws::typed_methods::{choosers_are_typed, helpers_are_typed, loading_is_typed};
use emit_types_laws::typed_spans::{bodies_have_typings, spans_are_typed};

/// Each method of the program that a translation is, with a meter or without, of a program that was accepted, is typed.
pub fn translations_are_typed()
    ensures { (meter : Option ℕ) (source : Source) (name : Text) (method_bytes : ℕ) (built : Built)
        → HasWholeCode source → (l : IsLinkedBy meter source name method_bytes built)
        → AllTyped (program_of l.classes) }
{
    helpers_are_typed();
    choosers_are_typed();
    loading_is_typed();
    spans_are_typed();
    bodies_have_typings();
}
