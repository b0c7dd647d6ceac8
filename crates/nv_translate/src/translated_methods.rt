//! How the methods of a translation are in its program. Each call here does nothing: its contract is the law.

ghost use Rattle.std.specs.Prelude.{ℕ, ◌≤◌, Option, is_some};
ghost use Rattle.nv_values.specs.Names.{Text};
ghost use Rattle.elf_definition.specs.Start.{Source};
ghost use Rattle.class_definition.specs.Linking.{program_of};
ghost use Rattle.translate_program.specs.declared.built.Built.{Built};
ghost use Rattle.nv_translate.specs.Linked.{IsLinkedBy};
ghost use Rattle.nv_translate.specs.AcceptedCode.{HasAcceptedCode};
ghost use Rattle.nv_translate.specs.Standing.{Stands};

/// The methods of a linked translation, with a meter or without, of a program that was accepted, whose spans may have
/// 4,096 bytes or more, are those of a program that translates the program's code. The helpers, the methods that choose
/// and those of spans are at their numbers, and the classes have all words of the code, in order.
pub fn translations_stand()
    ensures { (meter : Option ℕ) (source : Source) (name : Text) (method_bytes : ℕ) (built : Built)
        → HasAcceptedCode source → 4096 ≤ method_bytes
        → (l : IsLinkedBy meter source name method_bytes built)
        → Stands (is_some meter) source l.code (program_of l.classes) }
{}
