//! Numbers and registers.
ghost use Rattle.std.specs.Prelude.{◌≡◌, ◌≤◌, ◌<◌, option_map, Option};
ghost use Rattle.asm_lines.specs.Limits.{capped, kept};
ghost use Rattle.asm_lines.specs.Numbers as numbers;

use crate::number::Number;

/// A magnitude above every range.
const CAP: u64 = 1 << 40;

/// The number that a word is: decimal digits with an optional `-`, or `0x` and hexadecimal digits.
pub fn number_of(word: &[u8]) -> Option<Number>
    ensures { result ≡ option_map kept (numbers.written_number word.now) }
{
    match word {
        [b'-', digits @ ..] => digits_number(10, digits).map(|magnitude| Number {
            negative: true,
            magnitude,
        }),
        _ => positive(word).map(|magnitude| Number {
            negative: false,
            magnitude,
        }),
    }
}

/// The number of a register, `$0` to `$31` without leading zeros.
pub fn register_of(word: &[u8]) -> Option<u8>
    ensures { result ≡ numbers.register_of word.now }
{
    match word.split_first() {
        None => None,
        Some((first, digits)) => {
            if *first != b'$' || has_leading_zero(digits) {
                return None;
            }
            below_32(digits_number(10, digits))
        }
    }
}

fn below_32(number: Option<u64>) -> Option<u8>
    ensures { result ≡ numbers.below_32 number }
{
    match number {
        Some(n) if n < 32 => Some(n as u8),
        _ => None,
    }
}

fn has_leading_zero(digits: &[u8]) -> bool
    ensures { result ≡ numbers.has_leading_zero digits.now }
{
    match digits {
        [first, _, ..] => *first == b'0',
        _ => false,
    }
}

fn positive(word: &[u8]) -> Option<u64>
    ensures { result ≡ option_map capped (numbers.hexadecimal_or_decimal word.now) }
{
    match word {
        [b'0', b'x', digits @ ..] => digits_number(16, digits),
        _ => digits_number(10, word),
    }
}

/// The number that one or more digits are.
#[tactic(auto, using(crate::proofs::NumberLemmas::capped_step))]
fn digits_number(base: u64, digits: &[u8]) -> Option<u64>
    requires some_base { 1 ≤ base }
    requires low_base { base ≤ 16 }
    ensures { result ≡ option_map capped (numbers.digits_number base digits.now) }
{
    if digits.is_empty() {
        return None;
    }
    let mut high = 0;
    let mut left = digits;
    while let Some((first, rest)) = left.split_first() {
        let digit = digit_value(*first);
        if digit >= base {
            return None;
        }
        high = (high * base + digit).min(CAP);
        left = rest;
    }
    Some(high)
}

/// The value of a digit, upper or lower case, or 16 where it is none.
fn digit_value(b: u8) -> u64
    ensures value { result ≡ numbers.digit_value b }
    ensures bound { result ≤ 16 }
{
    match b {
        48..=57 => u64::from(b - 48),
        65..=70 => u64::from(b - 55),
        97..=102 => u64::from(b - 87),
        _ => 16,
    }
}
