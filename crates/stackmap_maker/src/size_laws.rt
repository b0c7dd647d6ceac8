//! What holds of sizes. The call here does nothing: its contract is the law.
ghost use Rattle.std.specs.Prelude.{◌≡◌, ℕ, List, length};
ghost use Rattle.class_definition.specs.declared.framed_class.FramedClass.{FramedClass};
ghost use Rattle.class_definition.specs.FramedClassFile.{SpellsFramed};
ghost use Rattle.stackmap_maker.specs.Refusals.{IsWritable};
ghost use Rattle.stackmap_maker.specs.Sizes.{file_size};

/// The size of a class's file is the number of bytes that spell the class.
pub fn sizes_are_lengths()
    ensures { (f : FramedClass) (bytes : List ℕ) → IsWritable f → SpellsFramed bytes f
        → length bytes ≡ file_size f }
{}
