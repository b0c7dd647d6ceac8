//! The numbers that select the names of a form: its opcode, its funct or its field rt.
ghost use Rattle.std.specs.Prelude.{◌≡◌, ◌<◌};
ghost use Rattle.mips_decode.specs.Encoding as encoding;

use mips_definition::{
    ArithmeticImmediateName, ArithmeticName, BranchEqualName, BranchSignName, BranchZeroName, HiLo,
    JumpName, LoadName, LogicalImmediateName, ProductName, ShiftName, StoreName, TrapImmediateName,
    TrapName, VariableShiftName,
};

pub(crate) fn arithmetic_funct(name: ArithmeticName) -> u8
    ensures value { result ≡ encoding.arithmetic_funct name }
    ensures bound { result < 64 }
{
    match name {
        ArithmeticName::Add => 0x20,
        ArithmeticName::Addu => 0x21,
        ArithmeticName::Sub => 0x22,
        ArithmeticName::Subu => 0x23,
        ArithmeticName::And => 0x24,
        ArithmeticName::Or => 0x25,
        ArithmeticName::Xor => 0x26,
        ArithmeticName::Nor => 0x27,
        ArithmeticName::Slt => 0x2a,
        ArithmeticName::Sltu => 0x2b,
    }
}

pub(crate) fn variable_shift_funct(name: VariableShiftName) -> u8
    ensures value { result ≡ encoding.variable_shift_funct name }
    ensures bound { result < 64 }
{
    match name {
        VariableShiftName::Sllv => 0x04,
        VariableShiftName::Srlv => 0x06,
        VariableShiftName::Srav => 0x07,
    }
}

pub(crate) fn shift_funct(name: ShiftName) -> u8
    ensures value { result ≡ encoding.shift_funct name }
    ensures bound { result < 64 }
{
    match name {
        ShiftName::Sll => 0x00,
        ShiftName::Srl => 0x02,
        ShiftName::Sra => 0x03,
    }
}

pub(crate) fn move_from_funct(name: HiLo) -> u8
    ensures value { result ≡ encoding.move_from_funct name }
    ensures bound { result < 64 }
{
    match name {
        HiLo::Hi => 0x10,
        HiLo::Lo => 0x12,
    }
}

pub(crate) fn move_to_funct(name: HiLo) -> u8
    ensures value { result ≡ encoding.move_to_funct name }
    ensures bound { result < 64 }
{
    match name {
        HiLo::Hi => 0x11,
        HiLo::Lo => 0x13,
    }
}

pub(crate) fn product_funct(name: ProductName) -> u8
    ensures value { result ≡ encoding.product_funct name }
    ensures bound { result < 64 }
{
    match name {
        ProductName::Mult => 0x18,
        ProductName::Multu => 0x19,
        ProductName::Div => 0x1a,
        ProductName::Divu => 0x1b,
    }
}

pub(crate) fn branch_sign_rt(name: BranchSignName) -> u8
    ensures value { result ≡ encoding.branch_sign_rt name }
    ensures bound { result < 32 }
{
    match name {
        BranchSignName::Bltz => 0x00,
        BranchSignName::Bgez => 0x01,
        BranchSignName::Bltzal => 0x10,
        BranchSignName::Bgezal => 0x11,
        BranchSignName::Bltzl => 0x02,
        BranchSignName::Bgezl => 0x03,
        BranchSignName::Bltzall => 0x12,
        BranchSignName::Bgezall => 0x13,
    }
}

pub(crate) fn jump_op(name: JumpName) -> u8
    ensures value { result ≡ encoding.jump_op name }
    ensures bound { result < 64 }
{
    match name {
        JumpName::J => 0x02,
        JumpName::Jal => 0x03,
    }
}

pub(crate) fn branch_equal_op(name: BranchEqualName) -> u8
    ensures value { result ≡ encoding.branch_equal_op name }
    ensures bound { result < 64 }
{
    match name {
        BranchEqualName::Beq => 0x04,
        BranchEqualName::Bne => 0x05,
        BranchEqualName::Beql => 0x14,
        BranchEqualName::Bnel => 0x15,
    }
}

pub(crate) fn branch_zero_op(name: BranchZeroName) -> u8
    ensures value { result ≡ encoding.branch_zero_op name }
    ensures bound { result < 64 }
{
    match name {
        BranchZeroName::Blez => 0x06,
        BranchZeroName::Bgtz => 0x07,
        BranchZeroName::Blezl => 0x16,
        BranchZeroName::Bgtzl => 0x17,
    }
}

pub(crate) fn arithmetic_immediate_op(name: ArithmeticImmediateName) -> u8
    ensures value { result ≡ encoding.arithmetic_immediate_op name }
    ensures bound { result < 64 }
{
    match name {
        ArithmeticImmediateName::Addi => 0x08,
        ArithmeticImmediateName::Addiu => 0x09,
        ArithmeticImmediateName::Slti => 0x0a,
        ArithmeticImmediateName::Sltiu => 0x0b,
    }
}

pub(crate) fn logical_immediate_op(name: LogicalImmediateName) -> u8
    ensures value { result ≡ encoding.logical_immediate_op name }
    ensures bound { result < 64 }
{
    match name {
        LogicalImmediateName::Andi => 0x0c,
        LogicalImmediateName::Ori => 0x0d,
        LogicalImmediateName::Xori => 0x0e,
    }
}

pub(crate) fn load_op(name: LoadName) -> u8
    ensures value { result ≡ encoding.load_op name }
    ensures bound { result < 64 }
{
    match name {
        LoadName::Lb => 0x20,
        LoadName::Lh => 0x21,
        LoadName::Lwl => 0x22,
        LoadName::Lw => 0x23,
        LoadName::Lbu => 0x24,
        LoadName::Lhu => 0x25,
        LoadName::Lwr => 0x26,
    }
}

pub(crate) fn store_op(name: StoreName) -> u8
    ensures value { result ≡ encoding.store_op name }
    ensures bound { result < 64 }
{
    match name {
        StoreName::Sb => 0x28,
        StoreName::Sh => 0x29,
        StoreName::Swl => 0x2a,
        StoreName::Sw => 0x2b,
        StoreName::Swr => 0x2e,
    }
}

pub(crate) fn trap_funct(name: TrapName) -> u8
    ensures value { result ≡ encoding.trap_funct name }
    ensures bound { result < 64 }
{
    match name {
        TrapName::Tge => 0x30,
        TrapName::Tgeu => 0x31,
        TrapName::Tlt => 0x32,
        TrapName::Tltu => 0x33,
        TrapName::Teq => 0x34,
        TrapName::Tne => 0x36,
    }
}

pub(crate) fn trap_immediate_rt(name: TrapImmediateName) -> u8
    ensures value { result ≡ encoding.trap_immediate_rt name }
    ensures bound { result < 32 }
{
    match name {
        TrapImmediateName::Tgei => 0x08,
        TrapImmediateName::Tgeiu => 0x09,
        TrapImmediateName::Tlti => 0x0a,
        TrapImmediateName::Tltiu => 0x0b,
        TrapImmediateName::Teqi => 0x0c,
        TrapImmediateName::Tnei => 0x0e,
    }
}
