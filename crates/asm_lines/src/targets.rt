//! Where branches and jumps go. An `Err` is the kind of an operand's fault.
ghost use Rattle.std.specs.Prelude.{◌≡◌, ◌<◌};
ghost use Rattle.asm_lines.specs.Operands as operands;

use crate::kinds::{NO_LABEL, OUT_OF_RANGE, WRONG_FORM};
use crate::labels::Labels;
use crate::lexical::is_name;
use crate::number::Number;
use crate::numbers::number_of;

/// The address that a label or a number stands for.
#[tactic(auto, using(crate::proofs::NumberLemmas::numbered_kept))]
pub fn target<'a>(labels: &Labels<'a>, text: &'a [u8]) -> Result<u64, u32>
    ensures { result ≡ operands.target labels.now text.now }
{
    if is_name(text) {
        match labels.address_of(text) {
            None => Err(NO_LABEL),
            Some(address) => Ok(address),
        }
    } else {
        numbered(number_of(text))
    }
}

fn numbered(number: Option<Number>) -> Result<u64, u32>
    ensures { result ≡ operands.numbered number }
{
    match number {
        None => Err(WRONG_FORM),
        Some(n) if n.negative && n.magnitude > 0 => Err(OUT_OF_RANGE),
        Some(n) if n.magnitude > 0xFFFF_FFFF => Err(OUT_OF_RANGE),
        Some(n) => Ok(n.magnitude),
    }
}

/// The immediate of a branch at the address `at` to a target.
pub fn branch_to(at: u64, target: Result<u64, u32>) -> Result<u16, u32>
    requires { at < 4611686018427387904 }
    ensures { result ≡ operands.branch_to at target }
{
    let to = target?;
    if to % 4 == 0 && at + 4 <= to.saturating_add(0x20000) && to < at + 4 + 0x20000 {
        Ok(((to + 0x40000 - (at + 4)) / 4 % 0x10000) as u16)
    } else {
        Err(OUT_OF_RANGE)
    }
}

/// The index of a jump at the address `at` to a target.
pub fn jump_to(at: u64, target: Result<u64, u32>) -> Result<u32, u32>
    requires { at < 4611686018427387904 }
    ensures { result ≡ operands.jump_to at target }
{
    let to = target?;
    if to % 4 == 0 && to / 0x1000_0000 == (at + 4) / 0x1000_0000 {
        Ok((to / 4 % 0x400_0000) as u32)
    } else {
        Err(OUT_OF_RANGE)
    }
}
