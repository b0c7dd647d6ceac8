//! From instructions to words.
ghost use Rattle.std.specs.Prelude.{◌≡◌, ◌<◌};
ghost use Rattle.mips_decode.specs.Encoding.{word_of, register_word, immediate_word, jump_word, code_word, trap_word};

use crate::numbers::{
    arithmetic_funct, arithmetic_immediate_op, branch_equal_op, branch_sign_rt, branch_zero_op,
    jump_op, load_op, logical_immediate_op, move_from_funct, move_to_funct, product_funct,
    shift_funct, store_op, trap_funct, trap_immediate_rt, variable_shift_funct,
};
use mips_definition::Inst;

/// The word of an instruction. Of a register, a shift amount, an index or a code that is too large for its field, the low
/// bits are taken; no instruction that `decode` gives has one.
pub fn encode(inst: &Inst) -> u32
    ensures { result ≡ word_of inst.now }
{
    match *inst {
        Inst::Arithmetic { name, rs, rt, rd } => register(rs, rt, rd, 0, arithmetic_funct(name)),
        Inst::VariableShift { name, rs, rt, rd } => register(
            rs,
            rt,
            rd,
            0,
            variable_shift_funct(name),
        ),
        Inst::Shift { name, rt, rd, sa } => register(0, rt, rd, sa, shift_funct(name)),
        Inst::JumpRegister { rs } => register(rs, 0, 0, 0, 0x08),
        Inst::JumpAndLinkRegister { rs, rd } => register(rs, 0, rd, 0, 0x09),
        Inst::Syscall { code } => coded(code, 0x0c),
        Inst::Break { code } => coded(code, 0x0d),
        Inst::MoveFrom { name, rd } => register(0, 0, rd, 0, move_from_funct(name)),
        Inst::MoveTo { name, rs } => register(rs, 0, 0, 0, move_to_funct(name)),
        Inst::Product { name, rs, rt } => register(rs, rt, 0, 0, product_funct(name)),
        Inst::BranchSign { name, rs, imm } => immediate(0x01, rs, branch_sign_rt(name), imm),
        Inst::Jump { name, index } => (u32::from(jump_op(name)) << 26) + (index & 0x03ff_ffff),
        Inst::BranchEqual { name, rs, rt, imm } => immediate(branch_equal_op(name), rs, rt, imm),
        Inst::BranchZero { name, rs, imm } => immediate(branch_zero_op(name), rs, 0, imm),
        Inst::ArithmeticImmediate { name, rs, rt, imm } => immediate(
            arithmetic_immediate_op(name),
            rs,
            rt,
            imm,
        ),
        Inst::LogicalImmediate { name, rs, rt, imm } => immediate(
            logical_immediate_op(name),
            rs,
            rt,
            imm,
        ),
        Inst::LoadUpper { rt, imm } => immediate(0x0f, 0, rt, imm),
        Inst::Load { name, rs, rt, imm } => immediate(load_op(name), rs, rt, imm),
        Inst::Store { name, rs, rt, imm } => immediate(store_op(name), rs, rt, imm),
        Inst::Trap { name, rs, rt, code } => trapped(rs, rt, code, trap_funct(name)),
        Inst::TrapImmediate { name, rs, imm } => immediate(0x01, rs, trap_immediate_rt(name), imm),
        Inst::Sync { sa } => register(0, 0, 0, sa, 0x0f),
        Inst::LoadLinked { rs, rt, imm } => immediate(0x30, rs, rt, imm),
        Inst::StoreConditional { rs, rt, imm } => immediate(0x38, rs, rt, imm),
        Inst::Reserved(w) => w,
        Inst::Float(w) => w,
    }
}

// A word of op 00.
fn register(rs: u8, rt: u8, rd: u8, sa: u8, funct: u8) -> u32
    requires { funct < 64 }
    ensures { result ≡ register_word 0 rs rt rd sa funct }
{
    (u32::from(rs & 0x1f) << 21)
        + (u32::from(rt & 0x1f) << 16)
        + (u32::from(rd & 0x1f) << 11)
        + (u32::from(sa & 0x1f) << 6)
        + u32::from(funct)
}

// A word with an immediate.
fn immediate(op: u8, rs: u8, rt: u8, imm: u16) -> u32
    requires { op < 64 }
    ensures { result ≡ immediate_word op rs rt imm }
{
    (u32::from(op) << 26)
        + (u32::from(rs & 0x1f) << 21)
        + (u32::from(rt & 0x1f) << 16)
        + u32::from(imm)
}

// A word of op 00 with a code.
fn coded(code: u32, funct: u8) -> u32
    requires { funct < 64 }
    ensures { result ≡ code_word code funct }
{
    ((code & 0xf_ffff) << 6) + u32::from(funct)
}

// A word of op 00 with two registers and a code between them and the funct.
fn trapped(rs: u8, rt: u8, code: u16, funct: u8) -> u32
    requires { funct < 64 }
    ensures { result ≡ trap_word rs rt code funct }
{
    (u32::from(rs & 0x1f) << 21)
        + (u32::from(rt & 0x1f) << 16)
        + (u32::from(code & 0x3ff) << 6)
        + u32::from(funct)
}
