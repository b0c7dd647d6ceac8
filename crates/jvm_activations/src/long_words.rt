//! What the instructions on longs compute, on their 64 bits.
ghost use Rattle.std.specs.Prelude.{◌≡◌, ◌<◌, ◌%◌, ◌^◌};
ghost use Rattle.std.specs.Int.{w64, cast_unsigned};
ghost use Rattle.run_definition.specs.Words.{signed_of};
ghost use Rattle.jvm_definition.specs.Words as words;

use jvm_definition::{LongArithmetic, LongDivision, LongShift};
use nv_words::signed;

/// The result of an operation.
#[inline]
pub(crate) fn long_result(name: LongArithmetic, a: u64, b: u64) -> u64
    ensures { result ≡ words.long_result name a b }
{
    match name {
        LongArithmetic::Ladd => a.wrapping_add(b),
        LongArithmetic::Lmul => a.wrapping_mul(b),
        LongArithmetic::Land => a & b,
    }
}

/// A quotient truncated toward zero, or a remainder with the dividend's sign.
#[inline]
pub(crate) fn long_quotient(name: LongDivision, a: u64, b: u64) -> u64
    requires { 0 < b }
    ensures { result ≡ words.long_quotient name a b }
{
    let dividend = a.cast_signed();
    let divisor = b.cast_signed();
    match name {
        LongDivision::Ldiv => dividend.wrapping_div(divisor).cast_unsigned(),
        LongDivision::Lrem => dividend.wrapping_rem(divisor).cast_unsigned(),
    }
}

/// A long shifted by the low six bits of an int.
#[inline]
pub(crate) fn long_shifted(name: LongShift, a: u64, n: u32) -> u64
    ensures { result ≡ words.long_shifted name a n }
{
    match name {
        LongShift::Lshl => a.wrapping_shl(n),
        LongShift::Lshr => a.cast_signed().wrapping_shr(n).cast_unsigned(),
        LongShift::Lushr => a.wrapping_shr(n),
    }
}

/// How two longs compare: -1, 0 or 1.
#[inline]
pub(crate) fn long_order(a: u64, b: u64) -> u32
    ensures { result ≡ words.long_order a b }
{
    if a == b {
        0
    } else if a.cast_signed() < b.cast_signed() {
        u32::MAX
    } else {
        1
    }
}

/// The long of an int.
#[inline]
pub(crate) fn long_of(n: u32) -> u64
    ensures { result ≡ cast_unsigned w64 (signed_of n) }
{
    i64::from(signed(n)).cast_unsigned()
}

/// The low 32 bits.
#[inline]
pub(crate) fn low_word(n: u64) -> u32
    ensures { result ≡ n % 2 ^ 32 }
{
    (n % 0x1_0000_0000) as u32
}
