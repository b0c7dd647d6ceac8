//! What holds of the classes of code. Each call here does nothing: its contract is the law.
ghost use Rattle.std.specs.Prelude.{◌≡◌, ℕ, ◌<◌, ◌≤◌, List, Some, flat_map, slice_get};
ghost use Rattle.elf_definition.specs.declared.range.Range.{Range};
ghost use Rattle.translate_program.specs.declared.block_info.BlockInfo.{BlockInfo};
ghost use Rattle.translate_program.specs.Spans.{AreSpans};
ghost use Rattle.translate_program.specs.Classes.{Placed};
ghost use Rattle.translate_program.specs.Blocks.{blocks_of_class};
ghost use Rattle.translate_program.specs.Places.{places_of, words_at, words_in};

/// The words that the classes have, class by class, are all words of the code, range by range.
pub fn classes_have_all_words()
    ensures { (ranges : List Range) → flat_map words_at (places_of ranges)
        ≡ flat_map words_in ranges }
{}

/// The blocks of a class rise by the addresses of their first words, and in one span the code of each ends before that of a later one begins.
pub fn blocks_of_a_class_rise()
    ensures words { (before method_bytes : ℕ) (c : Placed) (i j : ℕ) (a b : BlockInfo)
        → AreSpans c.part method_bytes c.spans → i < j
        → slice_get (blocks_of_class before c) i ≡ Some a
        → slice_get (blocks_of_class before c) j ≡ Some b → a.first < b.first }
    ensures code { (before method_bytes : ℕ) (c : Placed) (i j : ℕ) (a b : BlockInfo)
        → AreSpans c.part method_bytes c.spans → i < j
        → slice_get (blocks_of_class before c) i ≡ Some a
        → slice_get (blocks_of_class before c) j ≡ Some b → a.span ≡ b.span → a.to ≤ b.from }
{}
