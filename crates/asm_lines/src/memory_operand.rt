//! The operand of loads and stores: an immediate and a register, `imm($rs)`.
ghost use Rattle.std.specs.Prelude.{◌≡◌, ◌<◌, IfSome, length};
ghost use Rattle.asm_lines.specs.Cuts.{pair_list};
ghost use Rattle.asm_lines.specs.Operands as operands;

use crate::kinds::WRONG_FORM;
use crate::labels::Labels;
use crate::operands::{immediate, register};

/// The 16 bits of the immediate, and the number of the register. An `Err` is the lowest kind of the operand's faults.
#[tactic(auto, using(crate::proofs::MemoryLemmas::in_memory_end))]
pub fn in_memory<'a>(labels: &Labels<'a>, text: &'a [u8]) -> Result<(u16, u8), u32>
    ensures { pair_list result ≡ operands.in_memory labels.now text.now }
{
    match text.split_last() {
        Some((last, inner)) if *last == b')' => around(labels, inner, last_opening(inner)),
        _ => Err(WRONG_FORM),
    }
}

/// What is before and after the opening at a place.
fn around<'a>(
    labels: &Labels<'a>,
    inner: &'a [u8],
    opening: Option<usize>,
) -> Result<(u16, u8), u32>
    requires { IfSome opening (λ i. i < length inner.now) }
    ensures { pair_list result ≡ operands.around labels.now inner.now opening }
{
    match opening {
        None => Err(WRONG_FORM),
        Some(i) => {
            let front = inner.split_at(i).0;
            let back = inner.split_at(i + 1).1;
            both(immediate(32768, labels, front), register(back))
        }
    }
}

/// Both values, or the lowest kind.
fn both(first: Result<u16, u32>, second: Result<u8, u32>) -> Result<(u16, u8), u32>
    ensures { pair_list result ≡ operands.both_values (operands.one first) (operands.one second) }
{
    match (first, second) {
        (Ok(x), Ok(y)) => Ok((x, y)),
        (Ok(_), Err(kind)) => Err(kind),
        (Err(kind), Ok(_)) => Err(kind),
        (Err(kind), Err(other)) => Err(kind.min(other)),
    }
}

/// The place of the last `(`.
#[tactic(auto, using(crate::proofs::MemoryLemmas::last_opening_end))]
fn last_opening(text: &[u8]) -> Option<usize>
    ensures value { result ≡ operands.last_opening text.now }
    ensures within { IfSome result (λ i. i < length text.now) }
{
    let mut left = text;
    while let Some((last, rest)) = left.split_last() {
        if *last == b'(' {
            return Some(rest.len());
        }
        left = rest;
    }
    None
}
