//! The helper methods that load.
ghost use Rattle.std.specs.Prelude.{◌≡◌, ◌++◌, ◌<◌, ◌≤◌, ◌^◌, OnOk, IfOk, length};
ghost use Rattle.mem_helpers.specs.Loads as emitted;

use crate::NoMemory;
use crate::amount::Amount;
use crate::parts::{
    append_accessed, append_amount, append_backward, append_index, append_ordered, left_amount,
    load, right_amount, shift, stack,
};
use emit_instructions::{append_steps, arithmetic, fields, push_word, put_field};
use emit_steps::Step;
use jvm_definition::{
    ArrayName, Conversion, Instruction, IntArithmetic, IntShift, ReturnName, StackName,
};
use nv_words::Order;
use std::alloc::Global;

/// The number of the method that ends the run where a load cannot be done.
const READ_FAULT: u32 = 18;

/// The int on the stack is the method's result.
pub fn append_gives(code: &mut Vec<Step>) -> Result<(), NoMemory>
    ensures { OnOk result (code.new.items ≡ code.old.items ++ emitted.gives) }
{
    code.push(Step::Does(Instruction::Return(ReturnName::Ireturn)))?;
    Ok(())
}

// Code that has the word of an address's page on the stack and makes the result of it, with the tests and the fault.
fn append_loading(
    alloc: Global,
    a: u8,
    bytes: u32,
    bits: u32,
    mut rest: Vec<Step>,
    code: &mut Vec<Step>,
) -> Result<(), NoMemory>
    requires bytes { bytes ≤ 4 }
    requires a { a < 8 }
    requires short { length rest.items < 2 ^ 8 }
    ensures { OnOk result (code.new.items ≡ code.old.items
        ++ emitted.loading a bytes bits rest.items) }
{
    let mut found = Vec::new(alloc);
    append_index(a, &mut found)?;
    found.push(Step::Does(Instruction::Array(ArrayName::Iaload)))?;
    found.append(&mut rest)?;
    append_gives(&mut found)?;
    let mut fault = Vec::new(alloc);
    append_read_fault(a, bits, &mut fault)?;
    append_accessed(fields::READABLE, a, bytes, found, fault, code)
}

fn append_read_fault(a: u8, bits: u32, code: &mut Vec<Step>) -> Result<(), NoMemory>
    requires { a < 8 }
    ensures { OnOk result (code.new.items ≡ code.old.items ++ emitted.read_fault_code a bits) }
{
    append_steps(
        [
            load(a),
            load(a + 1),
            push_word(bits),
            Step::Does(Instruction::Call(READ_FAULT)),
        ],
        code,
    )?;
    append_gives(code)
}

/// LW.
pub fn append_lw(alloc: Global, order: Order, code: &mut Vec<Step>) -> Result<(), NoMemory>
    ensures { OnOk result (code.new.items ≡ code.old.items ++ emitted.lw_method order) }
{
    let mut rest = Vec::new(alloc);
    append_ordered(order, 2, &mut rest)?;
    append_loading(alloc, 0, 4, 3, rest, code)
}

/// LL: the address is linked.
pub fn append_ll(alloc: Global, order: Order, code: &mut Vec<Step>) -> Result<(), NoMemory>
    ensures { OnOk result (code.new.items ≡ code.old.items ++ emitted.ll_method order) }
{
    let mut rest = Vec::new(alloc);
    append_ordered(order, 2, &mut rest)?;
    append_steps(
        [
            load(0),
            put_field(fields::LINK),
            push_word(1),
            put_field(fields::LINKED),
        ],
        &mut rest,
    )?;
    append_loading(alloc, 0, 4, 3, rest, code)
}

/// LH.
pub fn append_lh(alloc: Global, order: Order, code: &mut Vec<Step>) -> Result<(), NoMemory>
    ensures { OnOk result (code.new.items ≡ code.old.items ++ emitted.lh_method order) }
{
    let mut rest = Vec::new(alloc);
    append_half(order, &mut rest)?;
    rest.push(Step::Does(Instruction::Convert(Conversion::I2s)))?;
    append_loading(alloc, 0, 2, 1, rest, code)
}

/// LHU.
pub fn append_lhu(alloc: Global, order: Order, code: &mut Vec<Step>) -> Result<(), NoMemory>
    ensures { OnOk result (code.new.items ≡ code.old.items ++ emitted.lhu_method order) }
{
    let mut rest = Vec::new(alloc);
    append_half(order, &mut rest)?;
    rest.push(Step::Does(Instruction::Convert(Conversion::I2c)))?;
    append_loading(alloc, 0, 2, 1, rest, code)
}

/// LB.
pub fn append_lb(alloc: Global, code: &mut Vec<Step>) -> Result<(), NoMemory>
    ensures { OnOk result (code.new.items ≡ code.old.items ++ emitted.lb_method) }
{
    let mut rest = Vec::new(alloc);
    append_byte(&mut rest)?;
    rest.push(Step::Does(Instruction::Convert(Conversion::I2b)))?;
    append_loading(alloc, 0, 1, 0, rest, code)
}

/// LBU.
pub fn append_lbu(alloc: Global, code: &mut Vec<Step>) -> Result<(), NoMemory>
    ensures { OnOk result (code.new.items ≡ code.old.items ++ emitted.lbu_method) }
{
    let mut rest = Vec::new(alloc);
    append_byte(&mut rest)?;
    append_steps([push_word(255), arithmetic(IntArithmetic::Iand)], &mut rest)?;
    append_loading(alloc, 0, 1, 0, rest, code)
}

/// LWL.
pub fn append_lwl(alloc: Global, order: Order, code: &mut Vec<Step>) -> Result<(), NoMemory>
    ensures { OnOk result (code.new.items ≡ code.old.items ++ emitted.lwl_method order) }
{
    let mut rest = Vec::new(alloc);
    append_ordered(order, 3, &mut rest)?;
    append_kept(IntShift::Ishl, left_amount(order), &mut rest)?;
    append_loading(alloc, 1, 1, 0, rest, code)
}

/// LWR.
pub fn append_lwr(alloc: Global, order: Order, code: &mut Vec<Step>) -> Result<(), NoMemory>
    ensures { OnOk result (code.new.items ≡ code.old.items ++ emitted.lwr_method order) }
{
    let mut rest = Vec::new(alloc);
    append_ordered(order, 3, &mut rest)?;
    append_kept(IntShift::Iushr, right_amount(order), &mut rest)?;
    append_loading(alloc, 1, 1, 0, rest, code)
}

// The byte at the address, with other bits above it.
fn append_byte(code: &mut Vec<Step>) -> Result<(), NoMemory>
    ensures { OnOk result (code.new.items ≡ code.old.items ++ emitted.byte_code) }
{
    append_backward(3, 0, code)?;
    code.push(shift(IntShift::Iushr))?;
    Ok(())
}

// The half-word at the address in the guest's order, with other bits above it.
fn append_half(order: Order, code: &mut Vec<Step>) -> Result<(), NoMemory>
    ensures { OnOk result (code.new.items ≡ code.old.items ++ emitted.half_code order) }
{
    append_backward(2, 0, code)?;
    code.push(shift(IntShift::Iushr))?;
    match order {
        Order::Big => Ok(()),
        Order::Little => append_turned_half(code),
    }
}

fn append_turned_half(code: &mut Vec<Step>) -> Result<(), NoMemory>
    ensures { OnOk result (code.new.items ≡ code.old.items ++ emitted.turned_half_code) }
{
    append_steps(
        [
            stack(StackName::Dup),
            push_word(8),
            shift(IntShift::Ishl),
            stack(StackName::Swap),
            push_word(8),
            shift(IntShift::Iushr),
            push_word(255),
            arithmetic(IntArithmetic::Iand),
            arithmetic(IntArithmetic::Ior),
        ],
        code,
    )
}

// The word on the stack is shifted, and where the shift left zeros the register's bytes stay.
fn append_kept(name: IntShift, amount: Amount, code: &mut Vec<Step>) -> Result<(), NoMemory>
    ensures { OnOk result (code.new.items ≡ code.old.items ++ emitted.kept_code name amount) }
{
    append_amount(amount, code)?;
    append_steps([shift(name), load(0), push_word(0xffff_ffff)], code)?;
    append_amount(amount, code)?;
    append_steps(
        [
            shift(name),
            push_word(0xffff_ffff),
            arithmetic(IntArithmetic::Ixor),
            arithmetic(IntArithmetic::Iand),
            arithmetic(IntArithmetic::Ior),
        ],
        code,
    )
}
