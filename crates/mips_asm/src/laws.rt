//! What holds of texts as a whole.
ghost use Rattle.std.specs.Prelude.{◌≡◌, ℕ, [], ◌∷◌, None};
ghost use Rattle.run_definition.specs.Words.{IsWord};
ghost use Rattle.mips_definition.specs.Table.{inst};
ghost use Rattle.mips_decode.specs.Text.{text_of};
ghost use Rattle.mips_asm.specs.Program.{asm_fault, data_words, text_words};

/// The text that `print_inst` gives for the instruction of a word at 00400000 assembles to that word, and to nothing else.
pub fn printed_instructions_assemble_back()
    ensures fault { (w : ℕ) → IsWord w → asm_fault (text_of (inst w) 0x400000) ≡ None }
    ensures word { (w : ℕ) → IsWord w → text_words (text_of (inst w) 0x400000) ≡ w ∷ [] }
    ensures no_data { (w : ℕ) → IsWord w → data_words (text_of (inst w) 0x400000) ≡ [] }
{}
