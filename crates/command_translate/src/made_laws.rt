//! What holds of a made program. Each call here does nothing: its contract is the law.
ghost use Rattle.std.specs.Prelude.{◌≡◌, ℕ, ◌+◌, ◌*◌, ◌≤◌, List, [], None};
ghost use Rattle.elf_definition.specs.Area.{area};
ghost use Rattle.elf_definition.specs.Fault.{elf_fault, IsRunsOf};
ghost use Rattle.elf_definition.specs.declared.range.Range.{Range};
ghost use Rattle.elf_definition.specs.ImageFault.{image_fault};
ghost use Rattle.elf_definition.specs.FileFields.{words};
ghost use Rattle.mips_asm.specs.File.{IsFileOf};
ghost use Rattle.command_translate.specs.MadeWords.{made_words};
ghost use Rattle.command_translate.specs.MadeEnds.{ExitsLow, made_outcome};

/// The file of a program of at most 65,536 blocks passes every check of a file, and every check of an image that has 256 pages of heap
/// and 64 of stack.
pub fn made_files_are_accepted()
    ensures file { (count : ℕ) (file : List ℕ) → count ≤ 65536
        → IsFileOf (words (made_words count)) [] file → elf_fault file ≡ None }
    ensures image { (count : ℕ) (file : List ℕ) (runs : List Range) → count ≤ 65536
        → IsFileOf (words (made_words count)) [] file → IsRunsOf (area file) runs
        → image_fault file runs 256 64 ≡ None }
{}

/// A program of at most 65,536 blocks exits by itself, with a status from 0 to 127, within five steps for each block and four more: that
/// many does the reference machine make of it, where its image has 256 pages of heap and 64 of stack.
pub fn made_programs_end()
    ensures { (count moment : ℕ) (file : List ℕ) → count ≤ 65536
        → IsFileOf (words (made_words count)) [] file
        → ExitsLow (made_outcome (5 * count + 4) moment file) }
{}
