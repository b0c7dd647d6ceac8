//! From words to instructions.
ghost use Rattle.std.specs.Prelude.{◌≡◌, ◌<◌};
ghost use Rattle.mips_definition.specs.Table.{inst, op_of};

use crate::fields::{funct, op, rt};
use crate::forms::{
    arithmetic, arithmetic_immediate, branch_equal, branch_sign, branch_zero, break_point, jump,
    jump_and_link_register, jump_register, load, load_linked, load_upper, logical_immediate,
    move_from, move_to, product, shift, store, store_conditional, sync, syscall, trap,
    trap_immediate, variable_shift,
};
use mips_definition::{
    ArithmeticImmediateName, ArithmeticName, BranchEqualName, BranchSignName, BranchZeroName, HiLo,
    Inst, JumpName, LoadName, LogicalImmediateName, ProductName, ShiftName, StoreName,
    TrapImmediateName, TrapName, VariableShiftName,
};

/// The instruction that a word is.
#[tactic(auto, using(crate::proofs::Rows::inst_is, std::proofs::lemmas::Bool::Decides::nat_tests), unfolding(crate::proofs::Rows::by_fields))]
pub fn decode(w: u32) -> Inst
    ensures { result ≡ inst w }
{
    match op(w) {
        0x00 => special(w),
        0x01 => by_rt(w),
        0x02 => jump(JumpName::J, w),
        0x03 => jump(JumpName::Jal, w),
        0x04 => branch_equal(BranchEqualName::Beq, w),
        0x05 => branch_equal(BranchEqualName::Bne, w),
        0x06 => branch_zero(BranchZeroName::Blez, w),
        0x07 => branch_zero(BranchZeroName::Bgtz, w),
        0x08 => arithmetic_immediate(ArithmeticImmediateName::Addi, w),
        0x09 => arithmetic_immediate(ArithmeticImmediateName::Addiu, w),
        0x0a => arithmetic_immediate(ArithmeticImmediateName::Slti, w),
        0x0b => arithmetic_immediate(ArithmeticImmediateName::Sltiu, w),
        0x0c => logical_immediate(LogicalImmediateName::Andi, w),
        0x0d => logical_immediate(LogicalImmediateName::Ori, w),
        0x0e => logical_immediate(LogicalImmediateName::Xori, w),
        0x0f => load_upper(w),
        _ => upper(w),
    }
}

// op 00, which funct selects
#[tactic(auto, using(crate::proofs::Rows::inst_is, std::proofs::lemmas::Bool::Decides::nat_tests), unfolding(crate::proofs::Rows::by_fields))]
fn special(w: u32) -> Inst
    requires { op_of w ≡ 0 }
    ensures { result ≡ inst w }
{
    match funct(w) {
        0x00 => shift(ShiftName::Sll, w),
        0x02 => shift(ShiftName::Srl, w),
        0x03 => shift(ShiftName::Sra, w),
        0x08 => jump_register(w),
        0x09 => jump_and_link_register(w),
        0x0c => syscall(w),
        0x0d => break_point(w),
        0x0f => sync(w),
        0x10 => move_from(HiLo::Hi, w),
        0x12 => move_from(HiLo::Lo, w),
        0x11 => move_to(HiLo::Hi, w),
        0x13 => move_to(HiLo::Lo, w),
        0x18 => product(ProductName::Mult, w),
        0x19 => product(ProductName::Multu, w),
        0x1a => product(ProductName::Div, w),
        0x1b => product(ProductName::Divu, w),
        0x04 => variable_shift(VariableShiftName::Sllv, w),
        0x06 => variable_shift(VariableShiftName::Srlv, w),
        0x07 => variable_shift(VariableShiftName::Srav, w),
        0x20 => arithmetic(ArithmeticName::Add, w),
        0x21 => arithmetic(ArithmeticName::Addu, w),
        0x22 => arithmetic(ArithmeticName::Sub, w),
        0x23 => arithmetic(ArithmeticName::Subu, w),
        0x24 => arithmetic(ArithmeticName::And, w),
        0x25 => arithmetic(ArithmeticName::Or, w),
        0x26 => arithmetic(ArithmeticName::Xor, w),
        0x27 => arithmetic(ArithmeticName::Nor, w),
        0x2a => arithmetic(ArithmeticName::Slt, w),
        0x2b => arithmetic(ArithmeticName::Sltu, w),
        0x30 => trap(TrapName::Tge, w),
        0x31 => trap(TrapName::Tgeu, w),
        0x32 => trap(TrapName::Tlt, w),
        0x33 => trap(TrapName::Tltu, w),
        0x34 => trap(TrapName::Teq, w),
        0x36 => trap(TrapName::Tne, w),
        _ => Inst::Reserved(w),
    }
}

// op 01, which rt selects
#[tactic(auto, using(crate::proofs::Rows::inst_is, std::proofs::lemmas::Bool::Decides::nat_tests), unfolding(crate::proofs::Rows::by_fields))]
fn by_rt(w: u32) -> Inst
    requires { op_of w ≡ 1 }
    ensures { result ≡ inst w }
{
    match rt(w) {
        0x00 => branch_sign(BranchSignName::Bltz, w),
        0x01 => branch_sign(BranchSignName::Bgez, w),
        0x10 => branch_sign(BranchSignName::Bltzal, w),
        0x11 => branch_sign(BranchSignName::Bgezal, w),
        0x02 => branch_sign(BranchSignName::Bltzl, w),
        0x03 => branch_sign(BranchSignName::Bgezl, w),
        0x12 => branch_sign(BranchSignName::Bltzall, w),
        0x13 => branch_sign(BranchSignName::Bgezall, w),
        0x08 => trap_immediate(TrapImmediateName::Tgei, w),
        0x09 => trap_immediate(TrapImmediateName::Tgeiu, w),
        0x0a => trap_immediate(TrapImmediateName::Tlti, w),
        0x0b => trap_immediate(TrapImmediateName::Tltiu, w),
        0x0c => trap_immediate(TrapImmediateName::Teqi, w),
        0x0e => trap_immediate(TrapImmediateName::Tnei, w),
        _ => Inst::Reserved(w),
    }
}

// op 10 and above: the likely branches, the loads, the stores and the floating-point coprocessor
#[tactic(auto, using(crate::proofs::Rows::inst_is, std::proofs::lemmas::Bool::Decides::nat_tests), unfolding(crate::proofs::Rows::by_fields))]
fn upper(w: u32) -> Inst
    requires { 0x0F < op_of w }
    ensures { result ≡ inst w }
{
    match op(w) {
        0x14 => branch_equal(BranchEqualName::Beql, w),
        0x15 => branch_equal(BranchEqualName::Bnel, w),
        0x16 => branch_zero(BranchZeroName::Blezl, w),
        0x17 => branch_zero(BranchZeroName::Bgtzl, w),
        0x20 => load(LoadName::Lb, w),
        0x21 => load(LoadName::Lh, w),
        0x22 => load(LoadName::Lwl, w),
        0x23 => load(LoadName::Lw, w),
        0x24 => load(LoadName::Lbu, w),
        0x25 => load(LoadName::Lhu, w),
        0x26 => load(LoadName::Lwr, w),
        0x28 => store(StoreName::Sb, w),
        0x29 => store(StoreName::Sh, w),
        0x2a => store(StoreName::Swl, w),
        0x2b => store(StoreName::Sw, w),
        0x2e => store(StoreName::Swr, w),
        0x30 => load_linked(w),
        0x38 => store_conditional(w),
        0x11 | 0x31 | 0x39 => Inst::Float(w),
        _ => Inst::Reserved(w),
    }
}
