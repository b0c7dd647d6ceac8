//! The texts of operands.
ghost use Rattle.std.specs.Prelude.{◌≡◌, ◌==◌, ◌∷◌, [], IfSome, is_some, length, option_copied};
ghost use Rattle.asm_lines.specs.Cuts.{operands_behind};
ghost use Rattle.asm_lines.specs.Lexical.{operand_texts};

use crate::lexical::{before_byte, behind_byte, trim};

/// The one operand of a line, if it has one.
#[tactic(auto, using(crate::proofs::OperandLemmas::not_one))]
pub fn one_operand(rest: &[u8]) -> Option<&[u8]>
    ensures found { IfSome result (λ a. operand_texts rest.now ≡ a.now ∷ []) }
    ensures count { is_some result ≡ (length (operand_texts rest.now) == 1) }
{
    let (first, behind) = first_operand(rest);
    match behind {
        None => Some(first),
        Some(_) => None,
    }
}

/// The two operands of a line, if it has two.
#[tactic(auto, using(crate::proofs::OperandLemmas::one_more))]
pub fn two_operands(rest: &[u8]) -> Option<(&[u8], &[u8])>
    ensures found { IfSome result (λ p. operand_texts rest.now ≡ p.0.now ∷ p.1.now ∷ []) }
    ensures count { is_some result ≡ (length (operand_texts rest.now) == 2) }
{
    let (first, behind) = first_operand(rest);
    match behind {
        None => None,
        Some(behind) => match one_operand(behind) {
            None => None,
            Some(second) => Some((first, second)),
        },
    }
}

/// The three operands of a line, if it has three.
#[tactic(auto, using(crate::proofs::OperandLemmas::one_more))]
pub fn three_operands(rest: &[u8]) -> Option<(&[u8], &[u8], &[u8])>
    ensures found { IfSome result (λ p. operand_texts rest.now ≡ p.0.now ∷ p.1.now ∷ p.2.now ∷ []) }
    ensures count { is_some result ≡ (length (operand_texts rest.now) == 3) }
{
    let (first, behind) = first_operand(rest);
    match behind {
        None => None,
        Some(behind) => match two_operands(behind) {
            None => None,
            Some((second, third)) => Some((first, second, third)),
        },
    }
}

/// The first operand, and what is after the first comma.
#[tactic(auto, using(crate::proofs::OperandLemmas::first_operand))]
fn first_operand(rest: &[u8]) -> (&[u8], Option<&[u8]>)
    ensures { operand_texts rest.now ≡ result.0.now ∷ operands_behind (option_copied result.1) }
{
    (trim(before_byte(rest, b','), b' '), behind_byte(rest, b','))
}
