//! What holds of the instruction table as a whole.
ghost use Rattle.std.specs.Prelude.{◌≡◌, ℕ, AllPairs, IsTrue};
ghost use Rattle.run_definition.specs.Words.{IsWord};
ghost use Rattle.mips_definition.specs.declared.inst.Inst.{Inst};
ghost use Rattle.mips_definition.specs.Table.{fits_row, inst, instruction_table};
ghost use Rattle.mips_decode.specs.Encoding.{word_of};

/// No word fits two rows of the instruction table.
pub fn rows_are_disjoint()
    ensures { AllPairs (λ r s. (w : ℕ) → IsTrue (fits_row w r) → ¬ (IsTrue (fits_row w s))) instruction_table }
{}

/// To decode and to encode undo each other: on every word, and on every instruction that some word is.
pub fn encoding_inverts_decoding()
    ensures words { (w : ℕ) → IsWord w → word_of (inst w) ≡ w }
    ensures instructions { (i : Inst) (w : ℕ) → IsWord w → i ≡ inst w → inst (word_of i) ≡ i }
{}
