//! The helper methods in the order in which they are in the main class.
ghost use Rattle.std.specs.Prelude.{◌≡◌, ◌++◌, OnOk, List, ℕ};
ghost use Rattle.mem_helpers.specs.Methods as emitted;

use crate::NoMemory;
use crate::loads::{
    append_gives, append_lb, append_lbu, append_lh, append_lhu, append_ll, append_lw, append_lwl,
    append_lwr,
};
use crate::parts::load;
use crate::products::{append_div, append_divu, append_mult, append_multu};
use crate::stores::{
    append_return, append_sb, append_sc, append_sh, append_sw, append_swl, append_swr,
};
use emit_instructions::{append_steps, arithmetic, push_word};
use emit_steps::Step;
use jvm_definition::{BranchName, Instruction, IntArithmetic};
use mips_decode::fault_kinds::{READ_ALIGN, READ_UNMAPPED, WRITE_ALIGN, WRITE_REFUSED};
use nv_words::Order;
use std::alloc::Global;

/// The number of helper methods, with the two that end the run for them.
pub const METHODS: u32 = 20;

/// Appends the code of a helper method, by its number below 20.
///
/// # Errors
/// Out of memory for the code.
pub fn append_helper(
    alloc: Global,
    number: u32,
    order: Order,
    code: &mut Vec<Step>,
) -> Result<(), NoMemory>
    ensures { OnOk result (code.new.items ≡ code.old.items ++ emitted.helper_code order number) }
{
    match number {
        0 => append_lw(alloc, order, code),
        1 => append_lh(alloc, order, code),
        2 => append_lhu(alloc, order, code),
        3 => append_lb(alloc, code),
        4 => append_lbu(alloc, code),
        5 => append_lwl(alloc, order, code),
        6 => append_lwr(alloc, order, code),
        _ => append_store(alloc, number, order, code),
    }
}

fn append_store(
    alloc: Global,
    number: u32,
    order: Order,
    code: &mut Vec<Step>,
) -> Result<(), NoMemory>
    ensures { OnOk result (code.new.items ≡ code.old.items ++ emitted.store_code order number) }
{
    match number {
        7 => append_sw(alloc, order, code),
        8 => append_sh(alloc, order, code),
        9 => append_sb(alloc, code),
        10 => append_swl(alloc, order, code),
        11 => append_swr(alloc, order, code),
        _ => append_other(alloc, number, order, code),
    }
}

fn append_other(
    alloc: Global,
    number: u32,
    order: Order,
    code: &mut Vec<Step>,
) -> Result<(), NoMemory>
    ensures { OnOk result (code.new.items ≡ code.old.items ++ emitted.other_code order number) }
{
    match number {
        12 => append_div(code),
        13 => append_divu(code),
        14 => append_mult(code),
        15 => append_multu(code),
        16 => append_ll(alloc, order, code),
        17 => append_sc(alloc, order, code),
        18 => append_read_fault(code),
        19 => append_write_fault(code),
        _ => Ok(()),
    }
}

// An address, the instruction's address, and the bits that have to be 0: the fault is that of alignment where one of them is set.
fn append_fault(unmapped: u32, unaligned: u32, code: &mut Vec<Step>) -> Result<(), NoMemory>
    ensures { OnOk result (code.new.items ≡ code.old.items
        ++ emitted.fault_code unmapped unaligned) }
{
    append_steps(
        [
            load(0),
            load(2),
            arithmetic(IntArithmetic::Iand),
            Step::Skips(BranchName::Ifne, 2),
            push_word(unmapped),
            Step::Skips(BranchName::Goto, 1),
            push_word(unaligned),
            load(1),
            load(0),
            Step::Does(Instruction::FaultHost),
        ],
        code,
    )
}

fn append_read_fault(code: &mut Vec<Step>) -> Result<(), NoMemory>
    ensures { OnOk result (code.new.items ≡ code.old.items ++ emitted.read_fault_method) }
{
    append_fault(READ_UNMAPPED, READ_ALIGN, code)?;
    code.push(push_word(0))?;
    append_gives(code)
}

fn append_write_fault(code: &mut Vec<Step>) -> Result<(), NoMemory>
    ensures { OnOk result (code.new.items ≡ code.old.items ++ emitted.write_fault_method) }
{
    append_fault(WRITE_REFUSED, WRITE_ALIGN, code)?;
    append_return(code)
}
