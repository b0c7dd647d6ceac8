//! The code of branches and jumps, with the code of their delay slots.
ghost use Rattle.std.specs.Prelude.{◌≡◌, ◌++◌, ◌<◌, ◌≤◌, ◌^◌, OnOk, ℕ, length};
ghost use Rattle.emit_instructions.specs.Branching as emitted;

use crate::NoMemory;
use crate::access::{append_steps, get_register, push_word, put_field, put_register};
use crate::bank::Bank;
use crate::conditions::{equal_branch, jump_link, sign_branch, zero_branch};
use crate::fields::PC;
use crate::transfer::Transfer;
use emit_steps::Step;
use jvm_definition::{BranchName, Instruction, LocalKind, StackName};
use mips_decode::Inst;

/// A branch or jump at an address with the code of its slot. Of every other instruction it is that code alone.
pub fn append_transfer(
    bank: &Bank,
    inst: &Inst,
    at: u32,
    slot: Vec<Step>,
    code: &mut Vec<Step>,
) -> Result<(), NoMemory>
    requires short { length slot.items < 2 ^ 16 }
    ensures { OnOk result (code.new.items ≡ code.old.items
        ++ emitted.transfer_code bank.now inst.now at slot.items) }
{
    match *inst {
        Inst::BranchEqual { name, rs, rt, imm } => {
            append_steps([get_register(bank, rs), get_register(bank, rt)], code)?;
            append_conditional(bank, equal_branch(name, at, imm), at, slot, code)
        }
        Inst::BranchZero { name, rs, imm } => {
            code.push(get_register(bank, rs))?;
            append_conditional(bank, zero_branch(name, at, imm), at, slot, code)
        }
        Inst::BranchSign { name, rs, imm } => {
            code.push(get_register(bank, rs))?;
            append_conditional(bank, sign_branch(name, at, imm), at, slot, code)
        }
        Inst::Jump { name, .. } => {
            code.push(Step::Does(Instruction::Nop))?;
            append_linked(bank, jump_link(name), at, slot, code)
        }
        Inst::JumpRegister { rs } => {
            code.push(get_register(bank, rs))?;
            append_linked(bank, None, at, slot, code)
        }
        Inst::JumpAndLinkRegister { rs, rd } => {
            code.push(get_register(bank, rs))?;
            append_linked(bank, Some(rd), at, slot, code)
        }
        _ => append_all(slot, code),
    }
}

fn append_conditional(
    bank: &Bank,
    branch: Transfer,
    at: u32,
    slot: Vec<Step>,
    code: &mut Vec<Step>,
) -> Result<(), NoMemory>
    requires short { length slot.items < 2 ^ 16 }
    ensures { OnOk result (code.new.items ≡ code.old.items
        ++ emitted.conditional_code branch.likely branch.test branch.target
        (emitted.behind_slot at) (emitted.link_code bank.now branch.link at) slot.items) }
{
    if branch.likely {
        append_likely(bank, branch, at, slot, code)
    } else {
        append_linked(bank, branch.link, at, slot, code)
    }
}

// A likely branch that is not taken passes its slot over. A goal has four steps.
fn append_likely(
    bank: &Bank,
    branch: Transfer,
    at: u32,
    slot: Vec<Step>,
    code: &mut Vec<Step>,
) -> Result<(), NoMemory>
    requires short { length slot.items < 2 ^ 16 }
    ensures { OnOk result (code.new.items ≡ code.old.items
        ++ emitted.likely_code branch.test branch.target (emitted.behind_slot at)
        (emitted.link_code bank.now branch.link at) slot.items) }
{
    let link = link_steps(branch.link);
    code.push(Step::Skips(branch.test, 5 + link))?;
    append_goal(behind_slot(at), code)?;
    append_link(bank, branch.link, at, code)?;
    code.push(Step::Skips(BranchName::Goto, 4 + link + slot.len() as u32))?;
    append_goal(branch.target, code)?;
    append_linked(bank, branch.link, at, slot, code)
}

// Where the guest goes is put into local variable 0 and field pc.
fn append_goal(target: u32, code: &mut Vec<Step>) -> Result<(), NoMemory>
    ensures { OnOk result (code.new.items ≡ code.old.items ++ emitted.goes_to_code target) }
{
    code.push(push_word(target))?;
    append_settled(code)
}

fn append_settled(code: &mut Vec<Step>) -> Result<(), NoMemory>
    ensures { OnOk result (code.new.items ≡ code.old.items ++ emitted.settle_code) }
{
    append_steps(
        [
            Step::Does(Instruction::Stack(StackName::Dup)),
            Step::Does(Instruction::Store(LocalKind::Int, 0)),
            put_field(PC),
        ],
        code,
    )
}

// The link, if there is one, and the slot.
fn append_linked(
    bank: &Bank,
    link: Option<u8>,
    at: u32,
    slot: Vec<Step>,
    code: &mut Vec<Step>,
) -> Result<(), NoMemory>
    ensures { OnOk result (code.new.items ≡ code.old.items
        ++ (emitted.link_code bank.now link at ++ slot.items)) }
{
    append_link(bank, link, at, code)?;
    append_all(slot, code)
}

fn append_link(bank: &Bank, link: Option<u8>, at: u32, code: &mut Vec<Step>) -> Result<(), NoMemory>
    ensures { OnOk result (code.new.items ≡ code.old.items ++ emitted.link_code bank.now link at) }
{
    if let Some(r) = link {
        append_steps([push_word(behind_slot(at)), put_register(bank, r)], code)?;
    }
    Ok(())
}

fn link_steps(link: Option<u8>) -> u32
    ensures value { (bank at : ℕ) → result ≡ length (emitted.link_code bank link at) }
    ensures few { result ≤ 2 }
{
    if link.is_some() { 2 } else { 0 }
}

fn append_all(mut steps: Vec<Step>, code: &mut Vec<Step>) -> Result<(), NoMemory>
    ensures { OnOk result (code.new.items ≡ code.old.items ++ steps.items) }
{
    code.append(&mut steps)?;
    Ok(())
}

// The address behind the delay slot, which is also the link.
fn behind_slot(at: u32) -> u32
    ensures { result ≡ emitted.behind_slot at }
{
    at.wrapping_add(8)
}
