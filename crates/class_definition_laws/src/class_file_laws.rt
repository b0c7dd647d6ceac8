//! Laws of class files: functions that do nothing, with contracts that hold of every class file.
ghost use Rattle.std.specs.Prelude.{◌≡◌, ℕ, List};
ghost use Rattle.class_definition.specs.declared.class.Class.{Class};
ghost use Rattle.class_definition.specs.ClassFile.{Spells};

/// A class has one spelling.
pub fn one_spelling()
    ensures { (c : Class) (first second : List ℕ) → Spells first c → Spells second c
        → second ≡ first }
{}

/// Bytes spell one class.
pub fn one_class()
    ensures { (bytes : List ℕ) (first second : Class) → Spells bytes first → Spells bytes second
        → second ≡ first }
{}
