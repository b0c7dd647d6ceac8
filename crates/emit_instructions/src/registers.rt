//! The code of what is computed of registers.
ghost use Rattle.std.specs.Prelude.{◌≡◌, ◌++◌, OnOk};
ghost use Rattle.emit_instructions.specs.Computing as emitted;

use crate::NoMemory;
use crate::access::{
    append_steps, append_turned, arithmetic, get_field, get_register, push_word, put_field,
    put_register,
};
use crate::bank::Bank;
use crate::computing::{append_chosen, append_moved, append_overflow};
use crate::fields::hi_lo_field;
use crate::helpers::product_helper;
use emit_steps::Step;
use jvm_definition::{BranchName, Instruction, IntArithmetic, IntShift, StackName};
use mips_decode::{ArithmeticName, HiLo, ProductName, ShiftName, VariableShiftName};

/// ADD to SLTU at an address, whose word is given.
pub fn append_arithmetic(
    bank: &Bank,
    name: ArithmeticName,
    rs: u8,
    rt: u8,
    rd: u8,
    at: u32,
    word: u32,
    code: &mut Vec<Step>,
) -> Result<(), NoMemory>
    ensures { OnOk result (code.new.items ≡ code.old.items
        ++ emitted.arithmetic_code bank.now name rs rt rd at word) }
{
    match name {
        ArithmeticName::Add => append_add(bank, rs, rt, rd, at, word, code),
        ArithmeticName::Addu => append_combined_or_moved(
            bank,
            IntArithmetic::Iadd,
            rs,
            rt,
            rd,
            code,
        ),
        ArithmeticName::Sub => append_sub(bank, rs, rt, rd, at, word, code),
        ArithmeticName::Subu => append_combined(bank, IntArithmetic::Isub, rs, rt, rd, code),
        ArithmeticName::And => append_combined(bank, IntArithmetic::Iand, rs, rt, rd, code),
        ArithmeticName::Or => append_combined_or_moved(bank, IntArithmetic::Ior, rs, rt, rd, code),
        ArithmeticName::Xor => append_combined(bank, IntArithmetic::Ixor, rs, rt, rd, code),
        ArithmeticName::Nor => append_nor(bank, rs, rt, rd, code),
        ArithmeticName::Slt => append_slt(bank, rs, rt, rd, code),
        ArithmeticName::Sltu => append_sltu(bank, rs, rt, rd, code),
    }
}

fn append_combined(
    bank: &Bank,
    name: IntArithmetic,
    rs: u8,
    rt: u8,
    rd: u8,
    code: &mut Vec<Step>,
) -> Result<(), NoMemory>
    ensures { OnOk result (code.new.items ≡ code.old.items
        ++ emitted.combined_code bank.now name rs rt rd) }
{
    append_steps(
        [
            get_register(bank, rs),
            get_register(bank, rt),
            arithmetic(name),
            put_register(bank, rd),
        ],
        code,
    )
}

// Where rt is register 0, it is a move.
fn append_combined_or_moved(
    bank: &Bank,
    name: IntArithmetic,
    rs: u8,
    rt: u8,
    rd: u8,
    code: &mut Vec<Step>,
) -> Result<(), NoMemory>
    ensures { OnOk result (code.new.items ≡ code.old.items
        ++ emitted.combined_or_moved_code bank.now name rs rt rd) }
{
    if rt == 0 {
        append_moved(bank, rs, rd, code)
    } else {
        append_combined(bank, name, rs, rt, rd, code)
    }
}

fn append_nor(bank: &Bank, rs: u8, rt: u8, rd: u8, code: &mut Vec<Step>) -> Result<(), NoMemory>
    ensures { OnOk result (code.new.items ≡ code.old.items ++ emitted.nor_code bank.now rs rt rd) }
{
    append_steps(
        [
            get_register(bank, rs),
            get_register(bank, rt),
            arithmetic(IntArithmetic::Ior),
            push_word(0xffff_ffff),
            arithmetic(IntArithmetic::Ixor),
            put_register(bank, rd),
        ],
        code,
    )
}

fn append_slt(bank: &Bank, rs: u8, rt: u8, rd: u8, code: &mut Vec<Step>) -> Result<(), NoMemory>
    ensures { OnOk result (code.new.items ≡ code.old.items ++ emitted.slt_code bank.now rs rt rd) }
{
    append_steps([get_register(bank, rs), get_register(bank, rt)], code)?;
    append_chosen(bank, BranchName::IfIcmplt, rd, code)
}

fn append_sltu(bank: &Bank, rs: u8, rt: u8, rd: u8, code: &mut Vec<Step>) -> Result<(), NoMemory>
    ensures { OnOk result (code.new.items ≡ code.old.items ++ emitted.sltu_code bank.now rs rt rd) }
{
    if rs == 0 {
        code.push(get_register(bank, rt))?;
        append_chosen(bank, BranchName::Ifne, rd, code)
    } else {
        append_turned(bank, rs, code)?;
        append_turned(bank, rt, code)?;
        append_chosen(bank, BranchName::IfIcmplt, rd, code)
    }
}

fn append_add(
    bank: &Bank,
    rs: u8,
    rt: u8,
    rd: u8,
    at: u32,
    word: u32,
    code: &mut Vec<Step>,
) -> Result<(), NoMemory>
    ensures { OnOk result (code.new.items ≡ code.old.items
        ++ emitted.add_code bank.now rs rt rd at word) }
{
    append_steps(
        [
            get_register(bank, rs),
            get_register(bank, rt),
            arithmetic(IntArithmetic::Iadd),
            Step::Does(Instruction::Stack(StackName::Dup)),
            get_register(bank, rs),
            arithmetic(IntArithmetic::Ixor),
            Step::Does(Instruction::Stack(StackName::Swap)),
            Step::Does(Instruction::Stack(StackName::DupX1)),
            get_register(bank, rt),
            arithmetic(IntArithmetic::Ixor),
        ],
        code,
    )?;
    append_overflow(bank, rd, at, word, code)
}

fn append_sub(
    bank: &Bank,
    rs: u8,
    rt: u8,
    rd: u8,
    at: u32,
    word: u32,
    code: &mut Vec<Step>,
) -> Result<(), NoMemory>
    ensures { OnOk result (code.new.items ≡ code.old.items
        ++ emitted.sub_code bank.now rs rt rd at word) }
{
    append_steps(
        [
            get_register(bank, rs),
            get_register(bank, rt),
            arithmetic(IntArithmetic::Isub),
            Step::Does(Instruction::Stack(StackName::Dup)),
            get_register(bank, rs),
            arithmetic(IntArithmetic::Ixor),
            get_register(bank, rs),
            get_register(bank, rt),
            arithmetic(IntArithmetic::Ixor),
        ],
        code,
    )?;
    append_overflow(bank, rd, at, word, code)
}

/// SLL, SRL and SRA. A shift to register 0 does nothing.
pub fn append_shift(
    bank: &Bank,
    name: ShiftName,
    rt: u8,
    rd: u8,
    sa: u8,
    code: &mut Vec<Step>,
) -> Result<(), NoMemory>
    ensures { OnOk result (code.new.items ≡ code.old.items
        ++ emitted.shift_code bank.now name rt rd sa) }
{
    if rd == 0 {
        code.push(Step::Does(Instruction::Nop))?;
        Ok(())
    } else if sa == 0 {
        append_moved(bank, rt, rd, code)
    } else {
        append_steps(
            [
                get_register(bank, rt),
                push_word(u32::from(sa)),
                Step::Does(Instruction::IntShift(shift_name(name))),
                put_register(bank, rd),
            ],
            code,
        )
    }
}

fn shift_name(name: ShiftName) -> IntShift
    ensures { result ≡ emitted.shift_name name }
{
    match name {
        ShiftName::Sll => IntShift::Ishl,
        ShiftName::Srl => IntShift::Iushr,
        ShiftName::Sra => IntShift::Ishr,
    }
}

/// SLLV, SRLV and SRAV.
pub fn append_variable_shift(
    bank: &Bank,
    name: VariableShiftName,
    rs: u8,
    rt: u8,
    rd: u8,
    code: &mut Vec<Step>,
) -> Result<(), NoMemory>
    ensures { OnOk result (code.new.items ≡ code.old.items
        ++ emitted.variable_shift_code bank.now name rs rt rd) }
{
    append_steps(
        [
            get_register(bank, rt),
            get_register(bank, rs),
            Step::Does(Instruction::IntShift(variable_shift_name(name))),
            put_register(bank, rd),
        ],
        code,
    )
}

fn variable_shift_name(name: VariableShiftName) -> IntShift
    ensures { result ≡ emitted.variable_shift_name name }
{
    match name {
        VariableShiftName::Sllv => IntShift::Ishl,
        VariableShiftName::Srlv => IntShift::Iushr,
        VariableShiftName::Srav => IntShift::Ishr,
    }
}

/// MFHI and MFLO.
pub fn append_move_from(
    bank: &Bank,
    name: HiLo,
    rd: u8,
    code: &mut Vec<Step>,
) -> Result<(), NoMemory>
    ensures { OnOk result (code.new.items ≡ code.old.items
        ++ emitted.move_from_code bank.now name rd) }
{
    append_steps([get_field(hi_lo_field(name)), put_register(bank, rd)], code)
}

/// MTHI and MTLO.
pub fn append_move_to(bank: &Bank, name: HiLo, rs: u8, code: &mut Vec<Step>) -> Result<(), NoMemory>
    ensures { OnOk result (code.new.items ≡ code.old.items
        ++ emitted.move_to_code bank.now name rs) }
{
    append_steps([get_register(bank, rs), put_field(hi_lo_field(name))], code)
}

/// MULT to DIVU, by a helper.
pub fn append_product(
    bank: &Bank,
    name: ProductName,
    rs: u8,
    rt: u8,
    code: &mut Vec<Step>,
) -> Result<(), NoMemory>
    ensures { OnOk result (code.new.items ≡ code.old.items
        ++ emitted.product_code bank.now name rs rt) }
{
    append_steps(
        [
            get_register(bank, rs),
            get_register(bank, rt),
            Step::Does(Instruction::Call(product_helper(name))),
        ],
        code,
    )
}
