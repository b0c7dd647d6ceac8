//! Where code goes after a unit.
ghost use Rattle.std.specs.Prelude.{◌≡◌, ◌++◌, OnOk, length};
ghost use Rattle.emit_instructions.specs.Branching.{behind_slot};
ghost use Rattle.emit_steps.specs.Returning.{returns};
ghost use Rattle.word_emitter.specs.Exits as emitted;

use crate::NoMemory;
use crate::extent::Extent;
use crate::registers::is_likely;
use delay_slots::Unit;
use emit_instructions::{
    Transfer, append_steps, equal_branch, fields, push_word, put_field, sign_branch, zero_branch,
};
use emit_steps::Step;
use jvm_definition::{BranchName, Instruction, LocalKind, ReturnName};
use mips_decode::{Inst, jump_target};

/// Appends the code after that of a unit at an address, in the method of a span. `behind` is the address whose code is directly after,
/// where there is one. A step that leaves names the address of a word of the span.
///
/// # Errors
/// Out of memory for the code.
pub fn append_exit(
    span: Extent,
    behind: Option<u32>,
    unit: &Unit,
    at: u32,
    code: &mut Vec<Step>,
) -> Result<(), NoMemory>
    ensures { OnOk result (code.new.items ≡ code.old.items
        ++ emitted.exit_code span behind unit.now at) }
{
    match *unit {
        Unit::Plain(_) | Unit::Call => append_next(span, behind, at.wrapping_add(4), code),
        Unit::Branch { inst, .. } => append_branch(span, behind, &inst, at, code),
        Unit::SlotMissing(inst) | Unit::SlotIsBranch { inst, .. } if is_likely(&inst) => {
            append_last(span, behind, at.wrapping_add(8), code)
        }
        Unit::SlotMissing(_) | Unit::SlotIsBranch { .. } | Unit::Trap { .. } => Ok(code.push(
            returns(),
        )?),
    }
}

fn append_branch(
    span: Extent,
    behind: Option<u32>,
    inst: &Inst,
    at: u32,
    code: &mut Vec<Step>,
) -> Result<(), NoMemory>
    ensures { OnOk result (code.new.items ≡ code.old.items
        ++ emitted.branch_exit span behind inst.now at) }
{
    match *inst {
        Inst::BranchSign { name, imm, .. } => {
            append_conditional(span, behind, sign_branch(name, at, imm), at, code)
        }
        Inst::BranchEqual { name, imm, .. } => {
            append_conditional(span, behind, equal_branch(name, at, imm), at, code)
        }
        Inst::BranchZero { name, imm, .. } => {
            append_conditional(span, behind, zero_branch(name, at, imm), at, code)
        }
        Inst::Jump { index, .. } => append_next(span, behind, jump_target(at, index), code),
        Inst::JumpRegister { .. } | Inst::JumpAndLinkRegister { .. } => {
            append_steps([put_field(fields::PC), returns()], code)
        }
        _ => Ok(code.push(returns())?),
    }
}

fn append_conditional(
    span: Extent,
    behind: Option<u32>,
    branch: Transfer,
    at: u32,
    code: &mut Vec<Step>,
) -> Result<(), NoMemory>
    ensures { OnOk result (code.new.items ≡ code.old.items
        ++ emitted.conditional_exit span behind branch.likely branch.test branch.target
        (behind_slot at)) }
{
    let second = at.wrapping_add(8);
    if branch.likely {
        append_two(span, behind, branch.target, second, code)
    } else {
        append_chosen(span, behind, branch.test, branch.target, second, code)
    }
}

// What is compared is on the stack.
fn append_chosen(
    span: Extent,
    behind: Option<u32>,
    test: BranchName,
    target: u32,
    second: u32,
    code: &mut Vec<Step>,
) -> Result<(), NoMemory>
    ensures { OnOk result (code.new.items ≡ code.old.items
        ++ emitted.chosen_ways span behind test target second) }
{
    code.push(Step::Skips(unless(test), go_steps(span, target)))?;
    append_go(span, target, code)?;
    append_next(span, behind, second, code)
}

// The test that is passed where the other is not.
fn unless(test: BranchName) -> BranchName
    ensures { result ≡ emitted.unless test }
{
    match test {
        BranchName::Iflt => BranchName::Ifge,
        BranchName::Ifge => BranchName::Iflt,
        BranchName::Ifgt => BranchName::Ifle,
        BranchName::Ifle => BranchName::Ifgt,
        BranchName::IfIcmpeq => BranchName::IfIcmpne,
        BranchName::IfIcmpne => BranchName::IfIcmpeq,
        _ => test,
    }
}

// Local variable 0 has one of two goals.
fn append_two(
    span: Extent,
    behind: Option<u32>,
    first: u32,
    second: u32,
    code: &mut Vec<Step>,
) -> Result<(), NoMemory>
    ensures { OnOk result (code.new.items ≡ code.old.items
        ++ emitted.two_ways span behind first second) }
{
    if span.has(first) || span.has(second) {
        append_steps(
            [
                Step::Does(Instruction::Load(LocalKind::Int, 0)),
                push_word(first),
                Step::Skips(BranchName::IfIcmpne, 1),
                arrive(span, first),
            ],
            code,
        )?;
        append_last(span, behind, second, code)
    } else {
        code.push(returns())?;
        Ok(())
    }
}

// The goal is known.
fn append_last(
    span: Extent,
    behind: Option<u32>,
    goal: u32,
    code: &mut Vec<Step>,
) -> Result<(), NoMemory>
    ensures { OnOk result (code.new.items ≡ code.old.items ++ emitted.last_way span behind goal) }
{
    if behind == Some(goal) {
        Ok(())
    } else {
        code.push(arrive(span, goal))?;
        Ok(())
    }
}

fn arrive(span: Extent, goal: u32) -> Step
    ensures { result ≡ emitted.arrive span goal }
{
    if span.has(goal) {
        Step::Leaves(goal)
    } else {
        returns()
    }
}

// An address is known, where the guest goes on.
fn append_next(
    span: Extent,
    behind: Option<u32>,
    next: u32,
    code: &mut Vec<Step>,
) -> Result<(), NoMemory>
    ensures { OnOk result (code.new.items ≡ code.old.items ++ emitted.next_exit span behind next) }
{
    if behind == Some(next) {
        Ok(())
    } else {
        append_go(span, next, code)
    }
}

// Field pc is set where the address is outside.
fn append_go(span: Extent, goal: u32, code: &mut Vec<Step>) -> Result<(), NoMemory>
    ensures { OnOk result (code.new.items ≡ code.old.items ++ emitted.go span goal) }
{
    if span.has(goal) {
        Ok(code.push(Step::Leaves(goal))?)
    } else {
        append_steps([push_word(goal), put_field(fields::PC), returns()], code)
    }
}

fn go_steps(span: Extent, goal: u32) -> u32
    ensures { result ≡ length (emitted.go span goal) }
{
    if span.has(goal) { 1 } else { 3 }
}

// The method ends, and field pc says where the guest goes.
fn returns() -> Step
    ensures { result ≡ returns }
{
    Step::Does(Instruction::Return(ReturnName::Return))
}
