//! That a program has one layout. The call here does nothing: its contract is the law.

ghost use Rattle.std.specs.Prelude.{ℕ, Option};
ghost use Rattle.nv_values.specs.Names.{Text};
ghost use Rattle.elf_definition.specs.Start.{Source};
ghost use Rattle.translate_program.specs.declared.built.Built.{Built};
ghost use Rattle.translate_program.specs.Translation.{IsTranslationBy};
ghost use Rattle.nv_translate.specs.Layouts.{IsSameLayout};

/// A program has one layout for each limit of bytes, whatever it is called, and with each meter or none: its spans, its blocks and what it needs.
pub fn layouts_are_one()
    ensures { (meter : Option ℕ) (source : Source) (name other : Text) (method_bytes : ℕ) (a b : Built)
        → IsTranslationBy meter source name method_bytes a
        → IsTranslationBy meter source other method_bytes b
        → IsSameLayout a.layout b.layout }
{}
