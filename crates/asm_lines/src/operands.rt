//! What operands stand for. An `Err` is the kind of an operand's fault.
ghost use Rattle.std.specs.Prelude.{◌≡◌, ◌<◌, ◌≤◌, ◌^◌, IfOk, option_copied};
ghost use Rattle.asm_lines.specs.Numbers as numbers;
ghost use Rattle.asm_lines.specs.Operands as operands;

use crate::kinds::{NO_LABEL, OUT_OF_RANGE, WRONG_FORM};
use crate::labels::Labels;
use crate::lexical::name_before;
use crate::number::Number;
use crate::numbers::{number_of, register_of};

/// The number of the register that an operand is.
pub fn register(text: &[u8]) -> Result<u8, u32>
    ensures { result ≡ operands.register_operand text.now }
{
    match register_of(text) {
        None => Err(WRONG_FORM),
        Some(n) => Ok(n),
    }
}

/// A shift amount, 0 to 31.
pub fn amount(text: &[u8]) -> Result<u8, u32>
    ensures { result ≡ operands.amount text.now }
{
    match number_between(0, 31, 5, text) {
        Ok(n) => Ok(n as u8),
        Err(kind) => Err(kind),
    }
}

/// The code of SYSCALL and BREAK, 0 to 1048575.
pub fn code(text: &[u8]) -> Result<u32, u32>
    ensures { result ≡ operands.code_operand text.now }
{
    match number_between(0, 1_048_575, 20, text) {
        Ok(n) => Ok(n as u32),
        Err(kind) => Err(kind),
    }
}

/// The code of a trap, 0 to 1023.
pub fn trap_code(text: &[u8]) -> Result<u16, u32>
    ensures { result ≡ operands.trap_code text.now }
{
    match number_between(0, 1023, 10, text) {
        Ok(n) => Ok(n as u16),
        Err(kind) => Err(kind),
    }
}

/// The 16 bits of an immediate: a number from `-low` to 65535, `%hi(name)` or `%lo(name)`.
pub fn immediate<'a>(low: u64, labels: &Labels<'a>, text: &'a [u8]) -> Result<u16, u32>
    requires { low ≤ 65536 }
    ensures { result ≡ operands.immediate low labels.now text.now }
{
    if let Some(name) = name_within(b"%hi(", text) {
        return upper_half(labels.address_of(name));
    }
    if let Some(name) = name_within(b"%lo(", text) {
        return lower_half(labels.address_of(name));
    }
    match number_between(low, 65535, 16, text) {
        Ok(n) => Ok(n as u16),
        Err(kind) => Err(kind),
    }
}

/// The low bits of a number from `-low` to `high`.
pub fn number_between(low: u64, high: u64, bits: u32, text: &[u8]) -> Result<u64, u32>
    requires low_small { low < 1099511627776 }
    requires high_small { high < 1099511627776 }
    requires few_bits { bits ≤ 32 }
    ensures value { result ≡ operands.number_operand low high bits text.now }
    ensures small { IfOk result (λ v. v < 2 ^ bits) }
{
    in_range(low, high, bits, number_of(text))
}

fn in_range(low: u64, high: u64, bits: u32, number: Option<Number>) -> Result<u64, u32>
    requires { bits ≤ 32 }
    ensures value { result ≡ operands.in_range low high bits number }
    ensures small { IfOk result (λ v. v < 2 ^ bits) }
{
    match number {
        None => Err(WRONG_FORM),
        Some(n) if is_between(low, high, n) => Ok(low_bits(bits, n)),
        Some(_) => Err(OUT_OF_RANGE),
    }
}

fn is_between(low: u64, high: u64, n: Number) -> bool
    ensures { result ≡ numbers.is_between low high n }
{
    if n.negative {
        n.magnitude <= low
    } else {
        n.magnitude <= high
    }
}

fn low_bits(bits: u32, n: Number) -> u64
    requires { bits ≤ 32 }
    ensures value { result ≡ numbers.low_bits_of bits n }
    ensures small { result < 2 ^ bits }
{
    let size = 1u64 << bits;
    let value = if n.negative {
        size.saturating_sub(n.magnitude)
    } else {
        n.magnitude
    };
    value % size
}

/// The name in an operand that is an opening, a name and `)`.
fn name_within<'a>(opening: &[u8], text: &'a [u8]) -> Option<&'a [u8]>
    ensures { option_copied result ≡ operands.name_within opening.now text.now }
{
    if text.len() < opening.len() {
        return None;
    }
    let (head, rest) = text.split_at(opening.len());
    if head == opening {
        name_before(b')', rest)
    } else {
        None
    }
}

fn upper_half(address: Option<u64>) -> Result<u16, u32>
    ensures { result ≡ operands.half_of operands.upper_half address }
{
    match address {
        None => Err(NO_LABEL),
        Some(address) => Ok(((address / 0x8000 + 1) / 2 % 0x10000) as u16),
    }
}

fn lower_half(address: Option<u64>) -> Result<u16, u32>
    ensures { result ≡ operands.half_of operands.lower_half address }
{
    match address {
        None => Err(NO_LABEL),
        Some(address) => Ok((address % 0x10000) as u16),
    }
}
