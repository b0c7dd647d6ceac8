//! Guards of units.
ghost use Rattle.std.specs.Prelude.{◌≡◌, ◌++◌, [], ◌∷◌, OnOk};
ghost use Rattle.emit_instructions.specs.Access as access;
ghost use Rattle.emit_instructions.specs.Faulting.{fault_code};
ghost use Rattle.meter.specs.Guards as emitted;

use crate::NoMemory;
use crate::likely::{equal_likely, sign_likely, zero_likely};
use delay_slots::Unit;
use emit_instructions::{
    Bank, append_steps, arithmetic, get_field, get_register, push_word, put_field,
};
use emit_steps::Step;
use jvm_definition::{BranchName, Instruction, IntArithmetic};
use mips_decode::Inst;

/// The field of the main class that says how many turns are left, after those of the guest's state.
pub const LEFT: u32 = 38;

/// The kind of the fault of a spent meter, which is none of the guest's.
pub const SPENT: u32 = 12;

/// Appends the guard of a unit at an address, which is before the code of the unit over the fields of the registers. If enough turns are
/// left for the unit it takes them off, and changes nothing else; otherwise it ends the run in the fault of a spent meter, at that address.
///
/// # Errors
/// Out of memory for the code.
pub fn append_guard(unit: &Unit, at: u32, code: &mut Vec<Step>) -> Result<(), NoMemory>
    ensures { OnOk result (code.new.items ≡ code.old.items ++ emitted.guard_code unit.now at) }
{
    match *unit {
        Unit::Plain(_) => append_counted(1, at, code),
        Unit::Branch { inst, .. } => append_transfer_guard(&inst, at, code),
        Unit::SlotMissing(inst) => append_transfer_guard(&inst, at, code),
        Unit::SlotIsBranch { inst, .. } => append_transfer_guard(&inst, at, code),
        Unit::Call => append_counted(1, at, code),
        Unit::Trap { .. } => append_counted(1, at, code),
    }
}

/// Appends code that takes so many turns off the meter, or ends the run at an address.
///
/// # Errors
/// Out of memory for the code.
pub fn append_counted(turns: u32, at: u32, code: &mut Vec<Step>) -> Result<(), NoMemory>
    ensures { OnOk result (code.new.items ≡ code.old.items ++ emitted.counted_code turns at) }
{
    append_steps(
        [
            get_field(LEFT),
            push_word(turns),
            Step::Skips(BranchName::IfIcmpge, 4),
        ],
        code,
    )?;
    append_spent(at, code)?;
    append_lowering(turns, code)
}

// The run ends in the fault of a spent meter at an address.
fn append_spent(at: u32, code: &mut Vec<Step>) -> Result<(), NoMemory>
    ensures { OnOk result (code.new.items ≡ code.old.items
        ++ fault_code emitted.spent_kind at 0) }
{
    append_steps(
        [
            push_word(SPENT),
            push_word(at),
            push_word(0),
            Step::Does(Instruction::FaultHost),
        ],
        code,
    )
}

fn append_lowering(turns: u32, code: &mut Vec<Step>) -> Result<(), NoMemory>
    ensures { OnOk result (code.new.items ≡ code.old.items ++ emitted.lowering_code turns) }
{
    append_steps(
        [
            get_field(LEFT),
            push_word(turns),
            arithmetic(IntArithmetic::Isub),
            put_field(LEFT),
        ],
        code,
    )
}

// Of a branch or jump with what stands in its delay slot. Only a likely branch asks whether it is taken.
fn append_transfer_guard(inst: &Inst, at: u32, code: &mut Vec<Step>) -> Result<(), NoMemory>
    ensures { OnOk result (code.new.items ≡ code.old.items ++ emitted.transfer_guard inst.now at) }
{
    match *inst {
        Inst::BranchEqual { name, rs, rt, .. } => append_pair_guard(
            equal_likely(name),
            rs,
            rt,
            at,
            code,
        ),
        Inst::BranchZero { name, rs, .. } => append_register_guard(zero_likely(name), rs, at, code),
        Inst::BranchSign { name, rs, .. } => append_register_guard(sign_likely(name), rs, at, code),
        _ => append_counted(2, at, code),
    }
}

fn append_pair_guard(
    likely: Option<BranchName>,
    rs: u8,
    rt: u8,
    at: u32,
    code: &mut Vec<Step>,
) -> Result<(), NoMemory>
    ensures { OnOk result (code.new.items ≡ code.old.items
        ++ emitted.branch_guard likely (access.get_register 0 rs ∷ access.get_register 0 rt ∷ [])
        at) }
{
    match likely {
        None => append_counted(2, at, code),
        Some(test) => {
            append_steps(
                [
                    get_register(&Bank::cold(), rs),
                    get_register(&Bank::cold(), rt),
                ],
                code,
            )?;
            append_by_test(test, at, code)
        }
    }
}

fn append_register_guard(
    likely: Option<BranchName>,
    rs: u8,
    at: u32,
    code: &mut Vec<Step>,
) -> Result<(), NoMemory>
    ensures { OnOk result (code.new.items ≡ code.old.items
        ++ emitted.branch_guard likely (access.get_register 0 rs ∷ []) at) }
{
    match likely {
        None => append_counted(2, at, code),
        Some(test) => {
            code.push(get_register(&Bank::cold(), rs))?;
            append_by_test(test, at, code)
        }
    }
}

// Two turns where the test is passed, and otherwise one.
fn append_by_test(test: BranchName, at: u32, code: &mut Vec<Step>) -> Result<(), NoMemory>
    ensures { OnOk result (code.new.items ≡ code.old.items ++ emitted.likely_guard test at) }
{
    code.push(Step::Skips(test, 12))?;
    append_counted(1, at, code)?;
    code.push(Step::Skips(BranchName::Goto, 11))?;
    append_counted(2, at, code)
}
