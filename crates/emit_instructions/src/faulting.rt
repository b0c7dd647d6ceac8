//! Code that ends the run in a fault, and the code of traps.
ghost use Rattle.std.specs.Prelude.{◌≡◌, ◌++◌, OnOk};
ghost use Rattle.emit_instructions.specs.Faulting as emitted;

use crate::NoMemory;
use crate::access::{append_steps, append_turned, get_register, push_word, turned};
use crate::bank::Bank;
use emit_steps::Step;
use jvm_definition::{BranchName, Instruction};
use mips_decode::fault_kinds::TRAP;
use mips_decode::{TrapImmediateName, TrapName};

/// The steps of a fault, which `append_fault` appends.
pub const FAULT_STEPS: u32 = 4;

/// The run ends in the fault of a kind at an address with a value.
pub fn append_fault(kind: u32, at: u32, value: u32, code: &mut Vec<Step>) -> Result<(), NoMemory>
    ensures { OnOk result (code.new.items ≡ code.old.items ++ emitted.fault_code kind at value) }
{
    append_steps(
        [
            push_word(kind),
            push_word(at),
            push_word(value),
            Step::Does(Instruction::FaultHost),
        ],
        code,
    )
}

/// TGE to TNE at an address, whose word is given.
pub fn append_trap(
    bank: &Bank,
    name: TrapName,
    rs: u8,
    rt: u8,
    at: u32,
    word: u32,
    code: &mut Vec<Step>,
) -> Result<(), NoMemory>
    ensures { OnOk result (code.new.items ≡ code.old.items
        ++ emitted.trap_code bank.now name rs rt at word) }
{
    match name {
        TrapName::Tgeu | TrapName::Tltu => {
            append_turned(bank, rs, code)?;
            append_turned(bank, rt, code)?;
        }
        TrapName::Tge | TrapName::Tlt | TrapName::Teq | TrapName::Tne => {
            append_steps([get_register(bank, rs), get_register(bank, rt)], code)?;
        }
    }
    append_unless(passing(name), at, word, code)
}

/// TGEI to TNEI at an address, whose word is given. The immediate is extended by its sign.
pub fn append_trap_with(
    bank: &Bank,
    name: TrapImmediateName,
    rs: u8,
    immediate: u32,
    at: u32,
    word: u32,
    code: &mut Vec<Step>,
) -> Result<(), NoMemory>
    ensures { OnOk result (code.new.items ≡ code.old.items
        ++ emitted.trap_with_code bank.now name rs immediate at word) }
{
    match name {
        TrapImmediateName::Tgeiu | TrapImmediateName::Tltiu => {
            append_turned(bank, rs, code)?;
            code.push(push_word(turned(immediate)))?;
        }
        TrapImmediateName::Tgei
        | TrapImmediateName::Tlti
        | TrapImmediateName::Teqi
        | TrapImmediateName::Tnei => {
            append_steps([get_register(bank, rs), push_word(immediate)], code)?;
        }
    }
    append_unless(passing_immediate(name), at, word, code)
}

// Where the two words on the stack compare so, there is no fault; else it is that of a trap.
fn append_unless(
    passes: BranchName,
    at: u32,
    word: u32,
    code: &mut Vec<Step>,
) -> Result<(), NoMemory>
    ensures { OnOk result (code.new.items ≡ code.old.items ++ emitted.unless_code passes at word) }
{
    code.push(Step::Skips(passes, FAULT_STEPS))?;
    append_fault(TRAP, at, word, code)
}

// The test that is passed where a trap does not fault.
fn passing(name: TrapName) -> BranchName
    ensures { result ≡ emitted.passing name }
{
    match name {
        TrapName::Tge | TrapName::Tgeu => BranchName::IfIcmplt,
        TrapName::Tlt | TrapName::Tltu => BranchName::IfIcmpge,
        TrapName::Teq => BranchName::IfIcmpne,
        TrapName::Tne => BranchName::IfIcmpeq,
    }
}

fn passing_immediate(name: TrapImmediateName) -> BranchName
    ensures { result ≡ emitted.passing_immediate name }
{
    match name {
        TrapImmediateName::Tgei | TrapImmediateName::Tgeiu => BranchName::IfIcmplt,
        TrapImmediateName::Tlti | TrapImmediateName::Tltiu => BranchName::IfIcmpge,
        TrapImmediateName::Teqi => BranchName::IfIcmpne,
        TrapImmediateName::Tnei => BranchName::IfIcmpeq,
    }
}
