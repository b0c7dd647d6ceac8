//! The results of the instructions that compute.
ghost use Rattle.std.specs.Prelude.{◌≡◌, ◌<◌, ◌/◌, ◌%◌, ◌^◌, Option};
ghost use Rattle.mips_definition.specs.Arithmetic as manual;

use mips_decode::{
    ArithmeticImmediateName, ArithmeticName, LogicalImmediateName, ProductName, ShiftName,
    VariableShiftName,
};
use nv_words::{signed, unsigned};

/// What an instruction from ADD to SLTU gives of the words in rs and rt, `a` and `b`: 1 or 0 where it compares.
///
/// None where it is ADD or SUB, and the sum or the difference of the signed words does not fit in 32 bits.
#[inline(always)]
pub fn arithmetic(name: ArithmeticName, a: u32, b: u32) -> Option<u32>
    ensures { result ≡ manual.arithmetic_result name a b }
{
    match name {
        ArithmeticName::Add => sum(a, b),
        ArithmeticName::Addu => Some(a.wrapping_add(b)),
        ArithmeticName::Sub => difference(a, b),
        ArithmeticName::Subu => Some(a.wrapping_sub(b)),
        ArithmeticName::And => Some(a & b),
        ArithmeticName::Or => Some(a | b),
        ArithmeticName::Xor => Some(a ^ b),
        ArithmeticName::Nor => Some(!(a | b)),
        ArithmeticName::Slt => Some(u32::from(signed(a) < signed(b))),
        ArithmeticName::Sltu => Some(u32::from(a < b)),
    }
}

#[inline(always)]
fn sum(a: u32, b: u32) -> Option<u32>
    ensures { result ≡ manual.arithmetic_result ArithmeticName.Add a b }
{
    match signed(a).checked_add(signed(b)) {
        Some(sum) => Some(unsigned(sum)),
        None => None,
    }
}

#[inline(always)]
fn difference(a: u32, b: u32) -> Option<u32>
    ensures { result ≡ manual.arithmetic_result ArithmeticName.Sub a b }
{
    match signed(a).checked_sub(signed(b)) {
        Some(difference) => Some(unsigned(difference)),
        None => None,
    }
}

/// An immediate of 16 bits as a word, extended by its sign.
#[inline(always)]
pub fn extended(imm: u16) -> u32
    ensures { result ≡ manual.sign_extended 16 imm }
{
    unsigned(i32::from(imm.cast_signed()))
}

/// What an instruction from ADDI to SLTIU gives of the word in rs, `a`, and the immediate, which it extends by its sign: 1 or 0 where it
/// compares.
///
/// None where it is ADDI, and the sum of the signed words does not fit in 32 bits.
#[inline(always)]
pub fn arithmetic_immediate(name: ArithmeticImmediateName, a: u32, imm: u16) -> Option<u32>
    ensures { result ≡ manual.arithmetic_immediate_result name a imm }
{
    let b = extended(imm);
    match name {
        ArithmeticImmediateName::Addi => sum(a, b),
        ArithmeticImmediateName::Addiu => Some(a.wrapping_add(b)),
        ArithmeticImmediateName::Slti => Some(u32::from(signed(a) < signed(b))),
        ArithmeticImmediateName::Sltiu => Some(u32::from(a < b)),
    }
}

/// What ANDI, ORI or XORI gives of the word in rs, `a`, and the immediate, with zeros above it.
#[inline(always)]
pub fn logical_immediate(name: LogicalImmediateName, a: u32, imm: u16) -> u32
    ensures { result ≡ manual.logical_immediate_result name a imm }
{
    match name {
        LogicalImmediateName::Andi => a & u32::from(imm),
        LogicalImmediateName::Ori => a | u32::from(imm),
        LogicalImmediateName::Xori => a ^ u32::from(imm),
    }
}

/// The word `w` shifted by an amount in bits, below 32: what SLL, SRL or SRA gives of the word in rt.
#[inline(always)]
pub fn shift(name: ShiftName, w: u32, amount: u32) -> u32
    requires { amount < 32 }
    ensures { result ≡ manual.shifted name w amount }
{
    match name {
        ShiftName::Sll => w << amount,
        ShiftName::Srl => w >> amount,
        ShiftName::Sra => unsigned(signed(w) >> amount),
    }
}

/// The word `w` shifted by the low five bits of the word `by`: what SLLV, SRLV or SRAV gives of the words in rt and rs.
#[inline(always)]
pub fn variable_shift(name: VariableShiftName, w: u32, by: u32) -> u32
    ensures { result ≡ manual.variable_shifted name w by }
{
    match name {
        VariableShiftName::Sllv => shift(ShiftName::Sll, w, by % 32),
        VariableShiftName::Srlv => shift(ShiftName::Srl, w, by % 32),
        VariableShiftName::Srav => shift(ShiftName::Sra, w, by % 32),
    }
}

/// HI and LO, in this order, after an instruction from MULT to DIVU of the words in rs and rt, `a` and `b`: the upper and the lower word of
/// the product, or the remainder and the quotient.
///
/// A division by 0 gives `a` and a word of ones.
#[inline(always)]
pub fn product(name: ProductName, a: u32, b: u32) -> (u32, u32)
    ensures hi { result.0 ≡ manual.product_hi name a b }
    ensures lo { result.1 ≡ manual.product_lo name a b }
{
    match name {
        ProductName::Mult => {
            halves((i64::from(signed(a)) * i64::from(signed(b))).cast_unsigned())
        }
        ProductName::Multu => halves(u64::from(a) * u64::from(b)),
        ProductName::Div if b == 0 => (a, u32::MAX),
        ProductName::Div => signed_quotient(a, b),
        ProductName::Divu if b == 0 => (a, u32::MAX),
        ProductName::Divu => (a % b, a / b),
    }
}

/// The upper and the lower half.
#[inline(always)]
fn halves(n: u64) -> (u32, u32)
    ensures upper { result.0 ≡ n / 2 ^ 32 }
    ensures lower { result.1 ≡ n % 2 ^ 32 }
{
    ((n >> 32) as u32, (n % 0x1_0000_0000) as u32)
}

/// The remainder and the quotient, truncated toward zero.
#[inline(always)]
fn signed_quotient(a: u32, b: u32) -> (u32, u32)
    requires { 0 < b }
    ensures hi { result.0 ≡ manual.product_hi ProductName.Div a b }
    ensures lo { result.1 ≡ manual.product_lo ProductName.Div a b }
{
    let remainder = signed(a).wrapping_rem(signed(b));
    let quotient = signed(a).wrapping_div(signed(b));
    (unsigned(remainder), unsigned(quotient))
}
