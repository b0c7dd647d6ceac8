//! The helper methods that store.
ghost use Rattle.std.specs.Prelude.{◌≡◌, ◌++◌, ◌<◌, ◌≤◌, ◌^◌, OnOk, length};
ghost use Rattle.run_definition.specs.declared.order.Order.TheVariants.{Big, Little};
ghost use Rattle.jvm_definition.specs.declared.int_shift.IntShift.TheVariants.{Ishl};
ghost use Rattle.mem_helpers.specs.Parts.{backward_code};
ghost use Rattle.mem_helpers.specs.Stores as emitted;

use crate::NoMemory;
use crate::amount::Amount;
use crate::loads::append_gives;
use crate::parts::{
    append_accessed, append_amount, append_backward, append_index, append_ordered, append_reversed,
    left_amount, load, right_amount, shift, stack,
};
use emit_instructions::{append_steps, arithmetic, fields, get_field, push_word, put_field};
use emit_steps::Step;
use jvm_definition::{
    ArrayName, BranchName, Instruction, IntArithmetic, IntShift, ReturnName, StackName,
};
use nv_words::Order;
use std::alloc::Global;

/// The number of the method that ends the run where a store cannot be done.
const WRITE_FAULT: u32 = 19;

/// The method returns nothing.
pub fn append_return(code: &mut Vec<Step>) -> Result<(), NoMemory>
    ensures { OnOk result (code.new.items ≡ code.old.items ++ emitted.returns_nothing) }
{
    code.push(Step::Does(Instruction::Return(ReturnName::Return)))?;
    Ok(())
}

fn append_write_fault(bits: u32, code: &mut Vec<Step>) -> Result<(), NoMemory>
    ensures { OnOk result (code.new.items ≡ code.old.items ++ emitted.write_fault_code bits) }
{
    append_steps(
        [
            load(1),
            load(2),
            push_word(bits),
            Step::Does(Instruction::Call(WRITE_FAULT)),
        ],
        code,
    )
}

fn append_put_word(code: &mut Vec<Step>) -> Result<(), NoMemory>
    ensures { OnOk result (code.new.items ≡ code.old.items ++ emitted.put_word) }
{
    code.push(Step::Does(Instruction::Array(ArrayName::Iastore)))?;
    Ok(())
}

// Code that has an address's page on the stack and stores into it, with the tests and the fault.
fn append_storing(
    alloc: Global,
    bytes: u32,
    bits: u32,
    mut found: Vec<Step>,
    code: &mut Vec<Step>,
) -> Result<(), NoMemory>
    requires bytes { bytes ≤ 4 }
    requires short { length found.items < 2 ^ 8 }
    ensures { OnOk result (code.new.items ≡ code.old.items
        ++ emitted.storing bytes bits found.items) }
{
    append_return(&mut found)?;
    let mut fault = Vec::new(alloc);
    append_write_fault(bits, &mut fault)?;
    append_return(&mut fault)?;
    append_accessed(fields::WRITABLE, 1, bytes, found, fault, code)
}

// The word that is stored, in the order of pages.
fn append_value(order: Order, code: &mut Vec<Step>) -> Result<(), NoMemory>
    ensures { OnOk result (code.new.items ≡ code.old.items ++ emitted.value_code order) }
{
    match order {
        Order::Big => Ok(code.push(load(0))?),
        Order::Little => append_reversed(0, code),
    }
}

/// SW.
pub fn append_sw(alloc: Global, order: Order, code: &mut Vec<Step>) -> Result<(), NoMemory>
    ensures { OnOk result (code.new.items ≡ code.old.items ++ emitted.sw_method order) }
{
    let mut found = Vec::new(alloc);
    append_index(1, &mut found)?;
    append_value(order, &mut found)?;
    append_put_word(&mut found)?;
    append_storing(alloc, 4, 3, found, code)
}

// No address is linked any more, and the number is given.
fn append_concluded(n: u32, code: &mut Vec<Step>) -> Result<(), NoMemory>
    ensures { OnOk result (code.new.items ≡ code.old.items ++ emitted.concluded_code n) }
{
    append_steps(
        [push_word(0), put_field(fields::LINKED), push_word(n)],
        code,
    )?;
    append_gives(code)
}

/// SC: where the address is linked, the word is stored and 1 is given, and 0 otherwise.
pub fn append_sc(alloc: Global, order: Order, code: &mut Vec<Step>) -> Result<(), NoMemory>
    ensures { OnOk result (code.new.items ≡ code.old.items ++ emitted.sc_method order) }
{
    let mut store = Vec::new(alloc);
    append_index(1, &mut store)?;
    append_value(order, &mut store)?;
    append_put_word(&mut store)?;
    append_concluded(1, &mut store)?;
    let mut linked = Vec::new(alloc);
    append_steps(
        [
            get_field(fields::LINK),
            load(1),
            Step::Skips(BranchName::IfIcmpne, store.len() as u32),
        ],
        &mut linked,
    )?;
    linked.append(&mut store)?;
    let mut found = Vec::new(alloc);
    append_steps(
        [
            get_field(fields::LINKED),
            Step::Skips(BranchName::Ifeq, linked.len() as u32),
        ],
        &mut found,
    )?;
    found.append(&mut linked)?;
    found.push(stack(StackName::Pop))?;
    append_concluded(0, &mut found)?;
    let mut fault = Vec::new(alloc);
    append_write_fault(3, &mut fault)?;
    fault.push(push_word(0))?;
    append_gives(&mut fault)?;
    append_accessed(fields::WRITABLE, 1, 4, found, fault, code)
}

// The word at the index is on the stack, with the index and the page below it.
fn append_read(code: &mut Vec<Step>) -> Result<(), NoMemory>
    ensures { OnOk result (code.new.items ≡ code.old.items ++ emitted.read_code) }
{
    append_index(1, code)?;
    append_steps(
        [
            stack(StackName::Dup2),
            Step::Does(Instruction::Array(ArrayName::Iaload)),
        ],
        code,
    )
}

// Where a byte or a half-word stands in its word: eight times the address whose low bits are turned.
fn append_lane_cleared(bits: u32, low: u32, code: &mut Vec<Step>) -> Result<(), NoMemory>
    ensures { OnOk result (code.new.items ≡ code.old.items
        ++ emitted.cleared_code bits (backward_code low 1) Ishl) }
{
    code.push(push_word(bits))?;
    append_backward(low, 1, code)?;
    append_cut(IntShift::Ishl, code)
}

// The bits of the shifted constant on the stack are cleared in the word below it.
fn append_cut(name: IntShift, code: &mut Vec<Step>) -> Result<(), NoMemory>
    ensures { OnOk result (code.new.items ≡ code.old.items ++ emitted.cut_code name) }
{
    append_steps(
        [
            shift(name),
            push_word(0xffff_ffff),
            arithmetic(IntArithmetic::Ixor),
            arithmetic(IntArithmetic::Iand),
        ],
        code,
    )
}

fn append_lane_set(low: u32, code: &mut Vec<Step>) -> Result<(), NoMemory>
    ensures { OnOk result (code.new.items ≡ code.old.items
        ++ emitted.set_code (backward_code low 1) Ishl) }
{
    append_backward(low, 1, code)?;
    append_steps(
        [shift(IntShift::Ishl), arithmetic(IntArithmetic::Ior)],
        code,
    )
}

/// SB.
pub fn append_sb(alloc: Global, code: &mut Vec<Step>) -> Result<(), NoMemory>
    ensures { OnOk result (code.new.items ≡ code.old.items ++ emitted.sb_method) }
{
    let mut found = Vec::new(alloc);
    append_read(&mut found)?;
    append_lane_cleared(255, 3, &mut found)?;
    append_byte_value(&mut found)?;
    append_lane_set(3, &mut found)?;
    append_put_word(&mut found)?;
    append_storing(alloc, 1, 0, found, code)
}

/// SH.
pub fn append_sh(alloc: Global, order: Order, code: &mut Vec<Step>) -> Result<(), NoMemory>
    ensures { OnOk result (code.new.items ≡ code.old.items ++ emitted.sh_method order) }
{
    let mut found = Vec::new(alloc);
    append_half_cleared(&mut found)?;
    append_half_stored(order, &mut found)?;
    append_storing(alloc, 2, 1, found, code)
}

fn append_byte_value(code: &mut Vec<Step>) -> Result<(), NoMemory>
    ensures { OnOk result (code.new.items ≡ code.old.items ++ emitted.byte_value_code) }
{
    append_steps(
        [load(0), push_word(255), arithmetic(IntArithmetic::Iand)],
        code,
    )
}

fn append_half_cleared(code: &mut Vec<Step>) -> Result<(), NoMemory>
    ensures { OnOk result (code.new.items ≡ code.old.items ++ emitted.half_cleared) }
{
    append_read(code)?;
    append_lane_cleared(0xffff, 2, code)
}

fn append_half_stored(order: Order, code: &mut Vec<Step>) -> Result<(), NoMemory>
    ensures { OnOk result (code.new.items ≡ code.old.items ++ emitted.half_stored order) }
{
    append_half_value(order, code)?;
    append_half_put(code)
}

fn append_half_put(code: &mut Vec<Step>) -> Result<(), NoMemory>
    ensures { OnOk result (code.new.items ≡ code.old.items ++ emitted.half_put) }
{
    append_lane_set(2, code)?;
    append_put_word(code)
}

// The half-word that is stored, in the order of pages.
fn append_half_value(order: Order, code: &mut Vec<Step>) -> Result<(), NoMemory>
    ensures { OnOk result (code.new.items ≡ code.old.items ++ emitted.half_value_code order) }
{
    match order {
        Order::Big => append_half(code),
        Order::Little => append_turned_half(code),
    }
}

fn append_half(code: &mut Vec<Step>) -> Result<(), NoMemory>
    ensures { OnOk result (code.new.items ≡ code.old.items ++ emitted.half_value_code Big) }
{
    append_steps(
        [load(0), push_word(0xffff), arithmetic(IntArithmetic::Iand)],
        code,
    )
}

fn append_turned_half(code: &mut Vec<Step>) -> Result<(), NoMemory>
    ensures { OnOk result (code.new.items ≡ code.old.items ++ emitted.half_value_code Little) }
{
    append_steps(
        [
            load(0),
            push_word(255),
            arithmetic(IntArithmetic::Iand),
            push_word(8),
            shift(IntShift::Ishl),
            load(0),
            push_word(8),
            shift(IntShift::Iushr),
            push_word(255),
            arithmetic(IntArithmetic::Iand),
            arithmetic(IntArithmetic::Ior),
        ],
        code,
    )
}

/// SWL.
pub fn append_swl(alloc: Global, order: Order, code: &mut Vec<Step>) -> Result<(), NoMemory>
    ensures { OnOk result (code.new.items ≡ code.old.items ++ emitted.swl_method order) }
{
    let mut found = Vec::new(alloc);
    append_part(order, IntShift::Iushr, left_amount(order), &mut found)?;
    append_storing(alloc, 1, 0, found, code)
}

/// SWR.
pub fn append_swr(alloc: Global, order: Order, code: &mut Vec<Step>) -> Result<(), NoMemory>
    ensures { OnOk result (code.new.items ≡ code.old.items ++ emitted.swr_method order) }
{
    let mut found = Vec::new(alloc);
    append_part(order, IntShift::Ishl, right_amount(order), &mut found)?;
    append_storing(alloc, 1, 0, found, code)
}

// The word of memory is turned into the guest's order and back.
fn append_part(
    order: Order,
    name: IntShift,
    amount: Amount,
    code: &mut Vec<Step>,
) -> Result<(), NoMemory>
    ensures { OnOk result (code.new.items ≡ code.old.items ++ emitted.part_code order name amount) }
{
    append_part_cleared(order, name, amount, code)?;
    code.push(load(0))?;
    append_part_put(order, name, amount, code)
}

fn append_part_cleared(
    order: Order,
    name: IntShift,
    amount: Amount,
    code: &mut Vec<Step>,
) -> Result<(), NoMemory>
    ensures { OnOk result (code.new.items ≡ code.old.items
        ++ emitted.part_cleared order name amount) }
{
    append_read(code)?;
    append_ordered(order, 3, code)?;
    code.push(push_word(0xffff_ffff))?;
    append_amount(amount, code)?;
    append_cut(name, code)
}

fn append_part_put(
    order: Order,
    name: IntShift,
    amount: Amount,
    code: &mut Vec<Step>,
) -> Result<(), NoMemory>
    ensures { OnOk result (code.new.items ≡ code.old.items ++ emitted.part_put order name amount) }
{
    append_amount(amount, code)?;
    append_steps([shift(name), arithmetic(IntArithmetic::Ior)], code)?;
    append_ordered(order, 3, code)?;
    append_put_word(code)
}
