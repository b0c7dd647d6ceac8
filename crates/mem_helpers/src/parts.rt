//! Parts of the helper methods' code.
ghost use Rattle.std.specs.Prelude.{◌≡◌, ◌++◌, ◌<◌, ◌≤◌, ◌^◌, OnOk, length};
ghost use Rattle.mem_helpers.specs.Parts as emitted;

use crate::NoMemory;
use crate::amount::Amount;
use emit_instructions::{append_steps, arithmetic, push_word};
use emit_steps::Step;
use jvm_definition::{
    ArrayName, BranchName, Instruction, IntArithmetic, IntShift, Kind, LocalKind, StackName,
};
use nv_words::Order;
use std::alloc::Global;

/// A local variable that holds an int is pushed.
pub fn load(i: u8) -> Step
    ensures { result ≡ emitted.load i }
{
    Step::Does(Instruction::Load(LocalKind::Int, i))
}

pub fn shift(name: IntShift) -> Step
    ensures { result ≡ emitted.shift name }
{
    Step::Does(Instruction::IntShift(name))
}

pub fn stack(name: StackName) -> Step
    ensures { result ≡ emitted.stack name }
{
    Step::Does(Instruction::Stack(name))
}

// That many of the following steps are passed over where an address is not aligned to 1, 2 or 4 bytes, or not below 80000000
// (hexadecimal).
fn append_unfit(a: u8, bytes: u32, over: u32, code: &mut Vec<Step>) -> Result<(), NoMemory>
    requires { bytes ≤ 4 }
    ensures { OnOk result (code.new.items ≡ code.old.items ++ emitted.unfit_code a bytes over) }
{
    code.push(load(a))?;
    if bytes == 1 {
        code.push(Step::Skips(BranchName::Iflt, over))?;
        Ok(())
    } else {
        append_steps(
            [
                push_word(0x7fff_ffff + bytes),
                arithmetic(IntArithmetic::Iand),
                Step::Skips(BranchName::Ifne, over),
            ],
            code,
        )
    }
}

// The address's page of a table is pushed; where none is there, null is, and that many of the following steps are passed over.
fn append_page(table: u32, a: u8, over: u32, code: &mut Vec<Step>) -> Result<(), NoMemory>
    ensures { OnOk result (code.new.items ≡ code.old.items ++ emitted.page_code table a over) }
{
    append_steps(
        [
            Step::Does(Instruction::Get(table, Kind::Pages)),
            load(a),
            push_word(12),
            shift(IntShift::Iushr),
            Step::Does(Instruction::Array(ArrayName::Aaload)),
            stack(StackName::Dup),
            Step::Skips(BranchName::Ifnull, over),
        ],
        code,
    )
}

/// The number of the address's word in its page.
pub fn append_index(a: u8, code: &mut Vec<Step>) -> Result<(), NoMemory>
    ensures { OnOk result (code.new.items ≡ code.old.items ++ emitted.index_code a) }
{
    append_steps(
        [
            load(a),
            push_word(2),
            shift(IntShift::Iushr),
            push_word(1023),
            arithmetic(IntArithmetic::Iand),
        ],
        code,
    )
}

/// The steps of `append_page`.
const PAGE_STEPS: u32 = 7;

/// Appends the tests of an address, the code that has its page on the stack and returns, and the code of a fault.
pub fn append_accessed(
    table: u32,
    a: u8,
    bytes: u32,
    mut found: Vec<Step>,
    mut fault: Vec<Step>,
    code: &mut Vec<Step>,
) -> Result<(), NoMemory>
    requires bytes { bytes ≤ 4 }
    requires short { length found.items < 2 ^ 16 }
    ensures { OnOk result (code.new.items ≡ code.old.items
        ++ emitted.accessed table a bytes found.items fault.items) }
{
    let size = found.len() as u32;
    append_unfit(a, bytes, PAGE_STEPS + size + 1, code)?;
    append_page(table, a, size, code)?;
    code.append(&mut found)?;
    code.push(stack(StackName::Pop))?;
    code.append(&mut fault)?;
    Ok(())
}

// Eight times the address.
fn append_forward(a: u8, code: &mut Vec<Step>) -> Result<(), NoMemory>
    ensures { OnOk result (code.new.items ≡ code.old.items ++ emitted.forward_code a) }
{
    append_steps([load(a), push_word(3), shift(IntShift::Ishl)], code)
}

/// Eight times the address whose low bits are turned.
pub fn append_backward(low: u32, a: u8, code: &mut Vec<Step>) -> Result<(), NoMemory>
    ensures { OnOk result (code.new.items ≡ code.old.items ++ emitted.backward_code low a) }
{
    append_steps(
        [
            load(a),
            push_word(low),
            arithmetic(IntArithmetic::Ixor),
            push_word(3),
            shift(IntShift::Ishl),
        ],
        code,
    )
}

/// The bytes of a word in a local variable, turned round.
pub fn append_reversed(w: u8, code: &mut Vec<Step>) -> Result<(), NoMemory>
    ensures { OnOk result (code.new.items ≡ code.old.items ++ emitted.reversed_code w) }
{
    append_steps(
        [
            load(w),
            push_word(24),
            shift(IntShift::Iushr),
            load(w),
            push_word(8),
            shift(IntShift::Iushr),
            push_word(0xff00),
            arithmetic(IntArithmetic::Iand),
            arithmetic(IntArithmetic::Ior),
            load(w),
            push_word(0xff00),
            arithmetic(IntArithmetic::Iand),
            push_word(8),
            shift(IntShift::Ishl),
            arithmetic(IntArithmetic::Ior),
            load(w),
            push_word(24),
            shift(IntShift::Ishl),
            arithmetic(IntArithmetic::Ior),
        ],
        code,
    )
}

/// The word on the stack in the guest's order, with a local variable that is free.
pub fn append_ordered(order: Order, free: u8, code: &mut Vec<Step>) -> Result<(), NoMemory>
    ensures { OnOk result (code.new.items ≡ code.old.items ++ emitted.ordered_code order free) }
{
    match order {
        Order::Big => Ok(()),
        Order::Little => {
            code.push(Step::Does(Instruction::Store(LocalKind::Int, free)))?;
            append_reversed(free, code)
        }
    }
}

/// How far a part of the word at the address in local variable 1 is shifted.
pub fn append_amount(amount: Amount, code: &mut Vec<Step>) -> Result<(), NoMemory>
    ensures { OnOk result (code.new.items ≡ code.old.items ++ emitted.amount_code amount) }
{
    match amount {
        Amount::Forward => append_forward(1, code),
        Amount::Backward => append_backward(3, 1, code),
    }
}

/// How far the left part of a word is from the most significant byte.
pub fn left_amount(order: Order) -> Amount
    ensures { result ≡ emitted.left_amount order }
{
    match order {
        Order::Big => Amount::Forward,
        Order::Little => Amount::Backward,
    }
}

/// How far the right part of a word is from the least significant byte.
pub fn right_amount(order: Order) -> Amount
    ensures { result ≡ emitted.right_amount order }
{
    match order {
        Order::Big => Amount::Backward,
        Order::Little => Amount::Forward,
    }
}
