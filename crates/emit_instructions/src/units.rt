//! The code of instructions and units at an address.
ghost use Rattle.std.specs.Prelude.{◌≡◌, ◌++◌, ◌<◌, ◌^◌, OnOk, length};
ghost use Rattle.emit_instructions.specs.Units as emitted;

use crate::NoMemory;
use crate::accessing::{
    append_call, append_load, append_load_linked, append_store, append_store_conditional,
};
use crate::bank::Bank;
use crate::branching::append_transfer;
use crate::faulting::{append_fault, append_trap, append_trap_with};
use crate::immediates::{
    append_arithmetic_immediate, append_load_upper, append_logical_immediate, extended,
};
use crate::registers::{
    append_arithmetic, append_move_from, append_move_to, append_product, append_shift,
    append_variable_shift,
};
use delay_slots::Unit;
use emit_steps::Step;
use jvm_definition::Instruction;
use mips_decode::fault_kinds::{BRANCH_IN_SLOT, BREAK, FETCH, RESERVED};
use mips_decode::{Inst, encode};
use std::alloc::Global;

/// Appends the code of a unit at an address, over a bank. It leads from before the unit to after it, or to the run's end. After a branch or
/// jump is on the stack what the way from it takes; a likely branch has put where the guest goes into field pc and local variable 0.
///
/// # Errors
/// Out of memory for the code.
pub fn append_unit(
    alloc: Global,
    bank: &Bank,
    unit: &Unit,
    at: u32,
    code: &mut Vec<Step>,
) -> Result<(), NoMemory>
    ensures { OnOk result (code.new.items ≡ code.old.items
        ++ emitted.unit_code bank.now unit.now at) }
{
    match *unit {
        Unit::Plain(inst) => append_instruction(bank, &inst, at, code),
        Unit::Branch { inst, slot } => {
            let mut slot_code = Vec::new(alloc);
            append_instruction(bank, &slot, next_address(at), &mut slot_code)?;
            append_transfer(bank, &inst, at, slot_code, code)
        }
        Unit::SlotMissing(inst) => {
            let mut fault = Vec::new(alloc);
            append_fault(FETCH, next_address(at), next_address(at), &mut fault)?;
            append_transfer(bank, &inst, at, fault, code)
        }
        Unit::SlotIsBranch { inst, word } => {
            let mut fault = Vec::new(alloc);
            append_fault(BRANCH_IN_SLOT, next_address(at), word, &mut fault)?;
            append_transfer(bank, &inst, at, fault, code)
        }
        Unit::Call => append_call(bank, code),
        Unit::Trap { kind, value } => append_fault(kind, at, value, code),
    }
}

/// Appends the code of an instruction that is no branch and no jump, at an address, alone or in a delay slot.
///
/// # Errors
/// Out of memory for the code.
pub fn append_instruction(
    bank: &Bank,
    inst: &Inst,
    at: u32,
    code: &mut Vec<Step>,
) -> Result<(), NoMemory>
    ensures { OnOk result (code.new.items ≡ code.old.items
        ++ emitted.instruction_code bank.now inst.now at) }
{
    match *inst {
        Inst::Arithmetic { name, rs, rt, rd } => append_arithmetic(
            bank,
            name,
            rs,
            rt,
            rd,
            at,
            encode(inst),
            code,
        ),
        Inst::VariableShift { name, rs, rt, rd } => append_variable_shift(
            bank, name, rs, rt, rd, code,
        ),
        Inst::Shift { name, rt, rd, sa } => append_shift(bank, name, rt, rd, sa, code),
        Inst::MoveFrom { name, rd } => append_move_from(bank, name, rd, code),
        Inst::MoveTo { name, rs } => append_move_to(bank, name, rs, code),
        Inst::Product { name, rs, rt } => append_product(bank, name, rs, rt, code),
        Inst::ArithmeticImmediate { name, rs, rt, imm } => append_arithmetic_immediate(
            bank,
            name,
            rs,
            rt,
            imm,
            at,
            encode(inst),
            code,
        ),
        Inst::LogicalImmediate { name, rs, rt, imm } => append_logical_immediate(
            bank, name, rs, rt, imm, code,
        ),
        Inst::LoadUpper { rt, imm } => append_load_upper(bank, rt, imm, code),
        Inst::Load { name, rs, rt, imm } => append_load(bank, name, rs, rt, imm, at, code),
        Inst::Store { name, rs, rt, imm } => append_store(bank, name, rs, rt, imm, at, code),
        Inst::LoadLinked { rs, rt, imm } => append_load_linked(bank, rs, rt, imm, at, code),
        Inst::StoreConditional { rs, rt, imm } => append_store_conditional(
            bank, rs, rt, imm, at, code,
        ),
        Inst::Trap { name, rs, rt, .. } => append_trap(bank, name, rs, rt, at, encode(inst), code),
        Inst::TrapImmediate { name, rs, imm } => append_trap_with(
            bank,
            name,
            rs,
            extended(imm),
            at,
            encode(inst),
            code,
        ),
        Inst::Syscall { .. } => append_call(bank, code),
        Inst::Break { code: number } => append_fault(BREAK, at, number, code),
        Inst::Reserved(word) => append_fault(RESERVED, at, word, code),
        Inst::Sync { .. } => Ok(code.push(Step::Does(Instruction::Nop))?),
        _ => Ok(()),
    }
}

fn next_address(at: u32) -> u32
    ensures { result ≡ emitted.next_address at }
{
    at.wrapping_add(4)
}
