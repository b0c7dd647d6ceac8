//! The forms of instructions: one of a name, with the fields of a word. If a field that must be 0 is not, the word is
//! reserved.
ghost use Rattle.std.specs.Prelude.{◌≡◌, ◌==◌, ◌&&◌, if◌then◌else◌};
ghost use Rattle.mips_definition.specs.declared.inst.Inst.TheVariants.{Reserved};
ghost use Rattle.mips_definition.specs.Table.{rs_of, rt_of, rd_of, sa_of};
ghost use Rattle.mips_definition.specs.Table as table;

use crate::fields::{code, imm, index, rd, rs, rt, sa, trap_code};
use mips_definition::{
    ArithmeticImmediateName, ArithmeticName, BranchEqualName, BranchSignName, BranchZeroName, HiLo,
    Inst, JumpName, LoadName, LogicalImmediateName, ProductName, ShiftName, StoreName,
    TrapImmediateName, TrapName, VariableShiftName,
};

pub(crate) fn arithmetic(name: ArithmeticName, w: u32) -> Inst
    ensures { result ≡ (if sa_of w == 0 then table.arithmetic name w else Reserved w) }
{
    if sa(w) != 0 {
        return Inst::Reserved(w);
    }
    Inst::Arithmetic {
        name,
        rs: rs(w),
        rt: rt(w),
        rd: rd(w),
    }
}

pub(crate) fn variable_shift(name: VariableShiftName, w: u32) -> Inst
    ensures { result ≡ (if sa_of w == 0 then table.variable_shift name w else Reserved w) }
{
    if sa(w) != 0 {
        return Inst::Reserved(w);
    }
    Inst::VariableShift {
        name,
        rs: rs(w),
        rt: rt(w),
        rd: rd(w),
    }
}

pub(crate) fn shift(name: ShiftName, w: u32) -> Inst
    ensures { result ≡ (if rs_of w == 0 then table.shift name w else Reserved w) }
{
    if rs(w) != 0 {
        return Inst::Reserved(w);
    }
    Inst::Shift {
        name,
        rt: rt(w),
        rd: rd(w),
        sa: sa(w),
    }
}

pub(crate) fn jump_register(w: u32) -> Inst
    ensures { result ≡ (if rt_of w == 0 && (rd_of w == 0 && sa_of w == 0) then table.jump_register w
        else Reserved w) }
{
    if rt(w) != 0 || rd(w) != 0 || sa(w) != 0 {
        return Inst::Reserved(w);
    }
    Inst::JumpRegister { rs: rs(w) }
}

pub(crate) fn jump_and_link_register(w: u32) -> Inst
    ensures { result ≡ (if rt_of w == 0 && sa_of w == 0 then table.jump_and_link_register w
        else Reserved w) }
{
    if rt(w) != 0 || sa(w) != 0 {
        return Inst::Reserved(w);
    }
    Inst::JumpAndLinkRegister {
        rs: rs(w),
        rd: rd(w),
    }
}

pub(crate) fn syscall(w: u32) -> Inst
    ensures { result ≡ table.syscall w }
{
    Inst::Syscall { code: code(w) }
}

pub(crate) fn break_point(w: u32) -> Inst
    ensures { result ≡ table.break w }
{
    Inst::Break { code: code(w) }
}

pub(crate) fn move_from(name: HiLo, w: u32) -> Inst
    ensures { result ≡ (if rs_of w == 0 && (rt_of w == 0 && sa_of w == 0)
        then table.move_from name w else Reserved w) }
{
    if rs(w) != 0 || rt(w) != 0 || sa(w) != 0 {
        return Inst::Reserved(w);
    }
    Inst::MoveFrom { name, rd: rd(w) }
}

pub(crate) fn move_to(name: HiLo, w: u32) -> Inst
    ensures { result ≡ (if rt_of w == 0 && (rd_of w == 0 && sa_of w == 0) then table.move_to name w
        else Reserved w) }
{
    if rt(w) != 0 || rd(w) != 0 || sa(w) != 0 {
        return Inst::Reserved(w);
    }
    Inst::MoveTo { name, rs: rs(w) }
}

pub(crate) fn product(name: ProductName, w: u32) -> Inst
    ensures { result ≡ (if rd_of w == 0 && sa_of w == 0 then table.product name w else Reserved w) }
{
    if rd(w) != 0 || sa(w) != 0 {
        return Inst::Reserved(w);
    }
    Inst::Product {
        name,
        rs: rs(w),
        rt: rt(w),
    }
}

pub(crate) fn branch_sign(name: BranchSignName, w: u32) -> Inst
    ensures { result ≡ table.branch_sign name w }
{
    Inst::BranchSign {
        name,
        rs: rs(w),
        imm: imm(w),
    }
}

pub(crate) fn jump(name: JumpName, w: u32) -> Inst
    ensures { result ≡ table.jump name w }
{
    Inst::Jump {
        name,
        index: index(w),
    }
}

pub(crate) fn branch_equal(name: BranchEqualName, w: u32) -> Inst
    ensures { result ≡ table.branch_equal name w }
{
    Inst::BranchEqual {
        name,
        rs: rs(w),
        rt: rt(w),
        imm: imm(w),
    }
}

pub(crate) fn branch_zero(name: BranchZeroName, w: u32) -> Inst
    ensures { result ≡ (if rt_of w == 0 then table.branch_zero name w else Reserved w) }
{
    if rt(w) != 0 {
        return Inst::Reserved(w);
    }
    Inst::BranchZero {
        name,
        rs: rs(w),
        imm: imm(w),
    }
}

pub(crate) fn arithmetic_immediate(name: ArithmeticImmediateName, w: u32) -> Inst
    ensures { result ≡ table.arithmetic_immediate name w }
{
    Inst::ArithmeticImmediate {
        name,
        rs: rs(w),
        rt: rt(w),
        imm: imm(w),
    }
}

pub(crate) fn logical_immediate(name: LogicalImmediateName, w: u32) -> Inst
    ensures { result ≡ table.logical_immediate name w }
{
    Inst::LogicalImmediate {
        name,
        rs: rs(w),
        rt: rt(w),
        imm: imm(w),
    }
}

pub(crate) fn load_upper(w: u32) -> Inst
    ensures { result ≡ (if rs_of w == 0 then table.load_upper w else Reserved w) }
{
    if rs(w) != 0 {
        return Inst::Reserved(w);
    }
    Inst::LoadUpper {
        rt: rt(w),
        imm: imm(w),
    }
}

pub(crate) fn load(name: LoadName, w: u32) -> Inst
    ensures { result ≡ table.load name w }
{
    Inst::Load {
        name,
        rs: rs(w),
        rt: rt(w),
        imm: imm(w),
    }
}

pub(crate) fn store(name: StoreName, w: u32) -> Inst
    ensures { result ≡ table.store name w }
{
    Inst::Store {
        name,
        rs: rs(w),
        rt: rt(w),
        imm: imm(w),
    }
}

pub(crate) fn trap(name: TrapName, w: u32) -> Inst
    ensures { result ≡ table.trap name w }
{
    Inst::Trap {
        name,
        rs: rs(w),
        rt: rt(w),
        code: trap_code(w),
    }
}

pub(crate) fn trap_immediate(name: TrapImmediateName, w: u32) -> Inst
    ensures { result ≡ table.trap_immediate name w }
{
    Inst::TrapImmediate {
        name,
        rs: rs(w),
        imm: imm(w),
    }
}

pub(crate) fn sync(w: u32) -> Inst
    ensures { result ≡ (if rs_of w == 0 && (rt_of w == 0 && rd_of w == 0) then table.sync w
        else Reserved w) }
{
    if rs(w) != 0 || rt(w) != 0 || rd(w) != 0 {
        return Inst::Reserved(w);
    }
    Inst::Sync { sa: sa(w) }
}

pub(crate) fn load_linked(w: u32) -> Inst
    ensures { result ≡ table.load_linked w }
{
    Inst::LoadLinked {
        rs: rs(w),
        rt: rt(w),
        imm: imm(w),
    }
}

pub(crate) fn store_conditional(w: u32) -> Inst
    ensures { result ≡ table.store_conditional w }
{
    Inst::StoreConditional {
        rs: rs(w),
        rt: rt(w),
        imm: imm(w),
    }
}
