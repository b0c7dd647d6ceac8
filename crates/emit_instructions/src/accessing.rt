//! The code of loads and stores, and of calls of the system.
ghost use Rattle.std.specs.Prelude.{◌≡◌, ◌++◌, OnOk};
ghost use Rattle.emit_instructions.specs.Accessing as emitted;

use crate::NoMemory;
use crate::access::{append_steps, arithmetic, get_register, push_word, put_field, put_register};
use crate::bank::Bank;
use crate::fields::{LINKED, READABLE, WRITABLE};
use crate::helpers::{LOAD_LINKED, STORE_CONDITIONAL, load_helper, store_helper};
use crate::immediates::extended;
use emit_steps::Step;
use jvm_definition::{Instruction, IntArithmetic, Kind};
use mips_decode::{LoadName, StoreName};

/// LB to LWR at an address. LWL and LWR keep bytes of the register.
pub fn append_load(
    bank: &Bank,
    name: LoadName,
    rs: u8,
    rt: u8,
    imm: u16,
    at: u32,
    code: &mut Vec<Step>,
) -> Result<(), NoMemory>
    ensures { OnOk result (code.new.items ≡ code.old.items
        ++ emitted.load_code bank.now name rs rt imm at) }
{
    if matches!(name, LoadName::Lwl | LoadName::Lwr) {
        code.push(get_register(bank, rt))?;
    }
    append_access(bank, load_helper(name), rs, imm, at, code)?;
    code.push(put_register(bank, rt))?;
    Ok(())
}

/// SB to SWR at an address.
pub fn append_store(
    bank: &Bank,
    name: StoreName,
    rs: u8,
    rt: u8,
    imm: u16,
    at: u32,
    code: &mut Vec<Step>,
) -> Result<(), NoMemory>
    ensures { OnOk result (code.new.items ≡ code.old.items
        ++ emitted.store_code bank.now name rs rt imm at) }
{
    code.push(get_register(bank, rt))?;
    append_access(bank, store_helper(name), rs, imm, at, code)
}

/// LL at an address.
pub fn append_load_linked(
    bank: &Bank,
    rs: u8,
    rt: u8,
    imm: u16,
    at: u32,
    code: &mut Vec<Step>,
) -> Result<(), NoMemory>
    ensures { OnOk result (code.new.items ≡ code.old.items
        ++ emitted.load_linked_code bank.now rs rt imm at) }
{
    append_access(bank, LOAD_LINKED, rs, imm, at, code)?;
    code.push(put_register(bank, rt))?;
    Ok(())
}

/// SC at an address: the helper gives whether it stored.
pub fn append_store_conditional(
    bank: &Bank,
    rs: u8,
    rt: u8,
    imm: u16,
    at: u32,
    code: &mut Vec<Step>,
) -> Result<(), NoMemory>
    ensures { OnOk result (code.new.items ≡ code.old.items
        ++ emitted.store_conditional_code bank.now rs rt imm at) }
{
    code.push(get_register(bank, rt))?;
    append_access(bank, STORE_CONDITIONAL, rs, imm, at, code)?;
    code.push(put_register(bank, rt))?;
    Ok(())
}

// An address and the instruction's own address are given to a helper.
fn append_access(
    bank: &Bank,
    helper: u32,
    rs: u8,
    imm: u16,
    at: u32,
    code: &mut Vec<Step>,
) -> Result<(), NoMemory>
    ensures { OnOk result (code.new.items ≡ code.old.items
        ++ emitted.access_code bank.now helper rs imm at) }
{
    append_address(bank, rs, extended(imm), code)?;
    append_steps([push_word(at), Step::Does(Instruction::Call(helper))], code)
}

fn append_address(bank: &Bank, rs: u8, immediate: u32, code: &mut Vec<Step>) -> Result<(), NoMemory>
    ensures { OnOk result (code.new.items ≡ code.old.items
        ++ emitted.address_code bank.now rs immediate) }
{
    code.push(get_register(bank, rs))?;
    if immediate != 0 {
        append_steps(
            [push_word(immediate), arithmetic(IntArithmetic::Iadd)],
            code,
        )?;
    }
    Ok(())
}

/// SYSCALL: the answer goes to r2, and no address is linked.
pub fn append_call(bank: &Bank, code: &mut Vec<Step>) -> Result<(), NoMemory>
    ensures { OnOk result (code.new.items ≡ code.old.items ++ emitted.call_code bank.now) }
{
    append_call_words(bank, code)?;
    append_steps(
        [
            Step::Does(Instruction::CallHost),
            put_register(bank, 2),
            push_word(0),
            put_field(LINKED),
        ],
        code,
    )
}

// The tables of pages, r2 and r4 to r7.
fn append_call_words(bank: &Bank, code: &mut Vec<Step>) -> Result<(), NoMemory>
    ensures { OnOk result (code.new.items ≡ code.old.items ++ emitted.call_words bank.now) }
{
    append_steps(
        [
            Step::Does(Instruction::Get(READABLE, Kind::Pages)),
            Step::Does(Instruction::Get(WRITABLE, Kind::Pages)),
            get_register(bank, 2),
            get_register(bank, 4),
            get_register(bank, 5),
            get_register(bank, 6),
            get_register(bank, 7),
        ],
        code,
    )
}
