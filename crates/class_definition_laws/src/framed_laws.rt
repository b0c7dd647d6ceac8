//! Laws of class files of version 51.0: functions that do nothing, with contracts that hold of every class file.
ghost use Rattle.std.specs.Prelude.{◌≡◌, ℕ, List, true};
ghost use Rattle.class_definition.specs.declared.class.Class.{Class};
ghost use Rattle.class_definition.specs.ClassFile.{class};
ghost use Rattle.class_definition.specs.declared.framed_class.FramedClass.{FramedClass};
ghost use Rattle.class_definition.specs.FramedClassFile.{IsTabled, framed_class, SpellsFramed};

/// A class with its tables has one spelling.
pub fn one_spelling()
    ensures { (c : FramedClass) (first second : List ℕ) → SpellsFramed first c → SpellsFramed second c
        → second ≡ first }
{}

/// Bytes spell one class with its tables.
pub fn one_class()
    ensures { (bytes : List ℕ) (first second : FramedClass) → SpellsFramed bytes first
        → SpellsFramed bytes second → second ≡ first }
{}

/// A class that keeps the rules of version 51.0 with its tables keeps those of version 48.0 but for the version.
pub fn framed_classes_are_classes()
    ensures { (c : FramedClass) → framed_class.fits c ≡ true → class.fits c.class ≡ true }
{}

/// A class that keeps the rules of version 48.0 but for the version keeps those of version 51.0 with such tables.
pub fn tabled_classes_are_framed()
    ensures { (c : FramedClass) → class.fits c.class ≡ true → IsTabled c
        → framed_class.fits c ≡ true }
{}
