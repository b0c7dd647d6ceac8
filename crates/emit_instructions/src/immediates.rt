//! The code of what is computed of a register and an immediate.
ghost use Rattle.std.specs.Prelude.{◌≡◌, ◌++◌, OnOk};
ghost use Rattle.mips_definition.specs.Targets as targets;
ghost use Rattle.emit_instructions.specs.Computing as emitted;

use crate::NoMemory;
use crate::access::{
    append_steps, append_turned, arithmetic, get_register, push_word, put_register, turned,
};
use crate::bank::Bank;
use crate::computing::{append_chosen, append_moved, append_overflow};
use emit_steps::Step;
use jvm_definition::{BranchName, Instruction, IntArithmetic, StackName};
use mips_decode::{ArithmeticImmediateName, LogicalImmediateName};

/// The immediate as a word, extended by its sign.
pub fn extended(imm: u16) -> u32
    ensures { result ≡ targets.extended_imm imm }
{
    if imm < 0x8000 {
        u32::from(imm)
    } else {
        0xffff_0000 + u32::from(imm)
    }
}

/// ADDI to SLTIU at an address, whose word is given.
pub fn append_arithmetic_immediate(
    bank: &Bank,
    name: ArithmeticImmediateName,
    rs: u8,
    rt: u8,
    imm: u16,
    at: u32,
    word: u32,
    code: &mut Vec<Step>,
) -> Result<(), NoMemory>
    ensures { OnOk result (code.new.items ≡ code.old.items
        ++ emitted.arithmetic_immediate_code bank.now name rs rt imm at word) }
{
    let immediate = extended(imm);
    match name {
        ArithmeticImmediateName::Addi => append_addi(bank, rs, immediate, rt, at, word, code),
        ArithmeticImmediateName::Addiu => append_joined_with(
            bank,
            IntArithmetic::Iadd,
            rs,
            immediate,
            rt,
            code,
        ),
        ArithmeticImmediateName::Slti => append_slti(bank, rs, immediate, rt, code),
        ArithmeticImmediateName::Sltiu => append_sltiu(bank, rs, immediate, rt, code),
    }
}

/// ANDI, ORI and XORI.
pub fn append_logical_immediate(
    bank: &Bank,
    name: LogicalImmediateName,
    rs: u8,
    rt: u8,
    imm: u16,
    code: &mut Vec<Step>,
) -> Result<(), NoMemory>
    ensures { OnOk result (code.new.items ≡ code.old.items
        ++ emitted.logical_immediate_code bank.now name rs rt imm) }
{
    let immediate = u32::from(imm);
    match name {
        LogicalImmediateName::Andi => append_combined_with(
            bank,
            IntArithmetic::Iand,
            rs,
            immediate,
            rt,
            code,
        ),
        LogicalImmediateName::Ori => append_joined_with(
            bank,
            IntArithmetic::Ior,
            rs,
            immediate,
            rt,
            code,
        ),
        LogicalImmediateName::Xori => append_combined_with(
            bank,
            IntArithmetic::Ixor,
            rs,
            immediate,
            rt,
            code,
        ),
    }
}

/// LUI.
pub fn append_load_upper(
    bank: &Bank,
    rt: u8,
    imm: u16,
    code: &mut Vec<Step>,
) -> Result<(), NoMemory>
    ensures { OnOk result (code.new.items ≡ code.old.items
        ++ emitted.load_upper_code bank.now rt imm) }
{
    append_set(bank, u32::from(imm) << 16, rt, code)
}

// A register becomes a word.
fn append_set(bank: &Bank, word: u32, rt: u8, code: &mut Vec<Step>) -> Result<(), NoMemory>
    ensures { OnOk result (code.new.items ≡ code.old.items ++ emitted.set_code bank.now word rt) }
{
    append_steps([push_word(word), put_register(bank, rt)], code)
}

fn append_combined_with(
    bank: &Bank,
    name: IntArithmetic,
    rs: u8,
    word: u32,
    rt: u8,
    code: &mut Vec<Step>,
) -> Result<(), NoMemory>
    ensures { OnOk result (code.new.items ≡ code.old.items
        ++ emitted.combined_with_code bank.now name rs word rt) }
{
    append_steps(
        [
            get_register(bank, rs),
            push_word(word),
            arithmetic(name),
            put_register(bank, rt),
        ],
        code,
    )
}

// A sum or an or: of register 0 it is the word, and of the word 0 a move.
fn append_joined_with(
    bank: &Bank,
    name: IntArithmetic,
    rs: u8,
    word: u32,
    rt: u8,
    code: &mut Vec<Step>,
) -> Result<(), NoMemory>
    ensures { OnOk result (code.new.items ≡ code.old.items
        ++ emitted.joined_with_code bank.now name rs word rt) }
{
    if rs == 0 {
        append_set(bank, word, rt, code)
    } else if word == 0 {
        append_moved(bank, rs, rt, code)
    } else {
        append_combined_with(bank, name, rs, word, rt, code)
    }
}

fn append_addi(
    bank: &Bank,
    rs: u8,
    immediate: u32,
    rt: u8,
    at: u32,
    word: u32,
    code: &mut Vec<Step>,
) -> Result<(), NoMemory>
    ensures { OnOk result (code.new.items ≡ code.old.items
        ++ emitted.addi_code bank.now rs immediate rt at word) }
{
    append_steps(
        [
            get_register(bank, rs),
            push_word(immediate),
            arithmetic(IntArithmetic::Iadd),
            Step::Does(Instruction::Stack(StackName::Dup)),
            get_register(bank, rs),
            arithmetic(IntArithmetic::Ixor),
            Step::Does(Instruction::Stack(StackName::Swap)),
            Step::Does(Instruction::Stack(StackName::DupX1)),
            push_word(immediate),
            arithmetic(IntArithmetic::Ixor),
        ],
        code,
    )?;
    append_overflow(bank, rt, at, word, code)
}

fn append_slti(
    bank: &Bank,
    rs: u8,
    immediate: u32,
    rt: u8,
    code: &mut Vec<Step>,
) -> Result<(), NoMemory>
    ensures { OnOk result (code.new.items ≡ code.old.items
        ++ emitted.slti_code bank.now rs immediate rt) }
{
    append_steps([get_register(bank, rs), push_word(immediate)], code)?;
    append_chosen(bank, BranchName::IfIcmplt, rt, code)
}

fn append_sltiu(
    bank: &Bank,
    rs: u8,
    immediate: u32,
    rt: u8,
    code: &mut Vec<Step>,
) -> Result<(), NoMemory>
    ensures { OnOk result (code.new.items ≡ code.old.items
        ++ emitted.sltiu_code bank.now rs immediate rt) }
{
    if immediate == 1 {
        code.push(get_register(bank, rs))?;
        append_chosen(bank, BranchName::Ifeq, rt, code)
    } else {
        append_turned(bank, rs, code)?;
        code.push(push_word(turned(immediate)))?;
        append_chosen(bank, BranchName::IfIcmplt, rt, code)
    }
}
