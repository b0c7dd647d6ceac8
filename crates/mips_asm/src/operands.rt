//! The operands of one instruction.
ghost use Rattle.std.specs.Prelude.{◌≡◌, ◌<◌, ◌∷◌, []};
ghost use Rattle.asm_lines.specs.Lexical.{operand_texts};
ghost use Rattle.mips_asm.specs.Halves.{form_of};
ghost use Rattle.mips_asm.specs.Instructions.{all_values, values, Register, Amount, Code, InMemory, Far};
ghost use Rattle.mips_asm.specs.Shapes.{list_of_one, list_of_two, list_of_three};

use crate::both::both;
use crate::half_form::HalfForm;
use asm_lines::{
    Labels, WRONG_FORM, amount, branch_to, code, immediate, in_memory, jump_to, one_operand,
    register, target, three_operands, trap_code, two_operands,
};

/// The operands of an instruction.
#[derive(Clone, Copy)]
pub struct Operands<'l, 'a> {
    /// The labels of the whole text.
    pub labels: &'l Labels<'a>,
    /// The address of the instruction.
    pub at: u64,
    /// What is after the mnemonic.
    pub text: &'a [u8],
    ghost small: { at < 4611686018427387904 },
}

impl<'l, 'a> Operands<'l, 'a> {
    /// `$r,$r,$r`.
    #[tactic(auto, using(crate::proofs::ShapeLemmas::other_count, crate::proofs::ShapeLemmas::three_values))]
    pub fn three_registers(&self) -> Result<(u8, (u8, u8)), u32>
        ensures { list_of_three result
            ≡ all_values self.now.labels.now self.now.at (Register ∷ Register ∷ Register ∷ [])
            (operand_texts self.now.text.now) }
    {
        match three_operands(self.text) {
            None => Err(WRONG_FORM),
            Some((a, b, c)) => both(register(a), both(register(b), register(c))),
        }
    }

    /// `$r,$r,sa`.
    #[tactic(auto, using(crate::proofs::ShapeLemmas::other_count, crate::proofs::ShapeLemmas::three_values))]
    pub fn two_registers_and_amount(&self) -> Result<(u8, (u8, u8)), u32>
        ensures { list_of_three result
            ≡ all_values self.now.labels.now self.now.at (Register ∷ Register ∷ Amount ∷ [])
            (operand_texts self.now.text.now) }
    {
        match three_operands(self.text) {
            None => Err(WRONG_FORM),
            Some((a, b, c)) => both(register(a), both(register(b), amount(c))),
        }
    }

    /// `$r,$r` and an operand of 16 bits.
    #[tactic(auto, using(crate::proofs::ShapeLemmas::other_count, crate::proofs::ShapeLemmas::three_values))]
    pub fn two_registers_and_half(&self, form: HalfForm) -> Result<(u8, (u8, u16)), u32>
        ensures { list_of_three result
            ≡ all_values self.now.labels.now self.now.at (Register ∷ Register ∷ form_of form ∷ [])
            (operand_texts self.now.text.now) }
    {
        match three_operands(self.text) {
            None => Err(WRONG_FORM),
            Some((a, b, c)) => both(register(a), both(register(b), self.half(form, c))),
        }
    }

    /// `$r,$r`.
    #[tactic(auto, using(crate::proofs::ShapeLemmas::other_count, crate::proofs::ShapeLemmas::two_values))]
    pub fn two_registers(&self) -> Result<(u8, u8), u32>
        ensures { list_of_two result
            ≡ all_values self.now.labels.now self.now.at (Register ∷ Register ∷ [])
            (operand_texts self.now.text.now) }
    {
        match two_operands(self.text) {
            None => Err(WRONG_FORM),
            Some((a, b)) => both(register(a), register(b)),
        }
    }

    /// `$r` and an operand of 16 bits.
    #[tactic(auto, using(crate::proofs::ShapeLemmas::other_count, crate::proofs::ShapeLemmas::two_values))]
    pub fn register_and_half(&self, form: HalfForm) -> Result<(u8, u16), u32>
        ensures { list_of_two result
            ≡ all_values self.now.labels.now self.now.at (Register ∷ form_of form ∷ [])
            (operand_texts self.now.text.now) }
    {
        match two_operands(self.text) {
            None => Err(WRONG_FORM),
            Some((a, b)) => both(register(a), self.half(form, b)),
        }
    }

    /// `$r,imm($r)`.
    #[tactic(auto, using(crate::proofs::ShapeLemmas::other_count, crate::proofs::ShapeLemmas::memory_values))]
    pub fn register_and_memory(&self) -> Result<(u8, (u16, u8)), u32>
        ensures { list_of_three result
            ≡ all_values self.now.labels.now self.now.at (Register ∷ InMemory ∷ [])
            (operand_texts self.now.text.now) }
    {
        match two_operands(self.text) {
            None => Err(WRONG_FORM),
            Some((a, b)) => both(register(a), in_memory(self.labels, b)),
        }
    }

    /// `$r`.
    #[tactic(auto, using(crate::proofs::ShapeLemmas::other_count, crate::proofs::ShapeLemmas::one_value))]
    pub fn one_register(&self) -> Result<u8, u32>
        ensures { list_of_one result
            ≡ all_values self.now.labels.now self.now.at (Register ∷ [])
            (operand_texts self.now.text.now) }
    {
        match one_operand(self.text) {
            None => Err(WRONG_FORM),
            Some(a) => register(a),
        }
    }

    /// `sa`.
    #[tactic(auto, using(crate::proofs::ShapeLemmas::other_count, crate::proofs::ShapeLemmas::one_value))]
    pub fn one_amount(&self) -> Result<u8, u32>
        ensures { list_of_one result
            ≡ all_values self.now.labels.now self.now.at (Amount ∷ [])
            (operand_texts self.now.text.now) }
    {
        match one_operand(self.text) {
            None => Err(WRONG_FORM),
            Some(a) => amount(a),
        }
    }

    /// `code`.
    #[tactic(auto, using(crate::proofs::ShapeLemmas::other_count, crate::proofs::ShapeLemmas::one_value))]
    pub fn one_code(&self) -> Result<u32, u32>
        ensures { list_of_one result
            ≡ all_values self.now.labels.now self.now.at (Code ∷ [])
            (operand_texts self.now.text.now) }
    {
        match one_operand(self.text) {
            None => Err(WRONG_FORM),
            Some(a) => code(a),
        }
    }

    /// The target of a jump, as its index.
    #[tactic(auto, using(crate::proofs::ShapeLemmas::other_count, crate::proofs::ShapeLemmas::one_value))]
    pub fn one_index(&self) -> Result<u32, u32>
        ensures { list_of_one result
            ≡ all_values self.now.labels.now self.now.at (Far ∷ [])
            (operand_texts self.now.text.now) }
    {
        match one_operand(self.text) {
            None => Err(WRONG_FORM),
            Some(a) => {
                let to = target(self.labels, a);
                jump_to(self.at, to)
            }
        }
    }

    /// The 16 bits of an operand.
    fn half(&self, form: HalfForm, text: &'a [u8]) -> Result<u16, u32>
        ensures { list_of_one result
            ≡ values self.now.labels.now self.now.at (form_of form) text.now }
    {
        match form {
            HalfForm::Signed => immediate(32768, self.labels, text),
            HalfForm::Unsigned => immediate(0, self.labels, text),
            HalfForm::Near => {
                let to = target(self.labels, text);
                branch_to(self.at, to)
            }
            HalfForm::TrapCode => trap_code(text),
        }
    }
}
