//! Code that several instructions share.
ghost use Rattle.std.specs.Prelude.{◌≡◌, ◌++◌, OnOk};
ghost use Rattle.emit_instructions.specs.Computing as emitted;

use crate::NoMemory;
use crate::access::{append_steps, arithmetic, get_register, push_word, put_register};
use crate::bank::Bank;
use crate::faulting::{FAULT_STEPS, append_fault};
use emit_steps::Step;
use jvm_definition::{BranchName, IntArithmetic};
use mips_decode::fault_kinds::OVERFLOW;

/// A register becomes what another one is.
pub fn append_moved(bank: &Bank, rs: u8, rd: u8, code: &mut Vec<Step>) -> Result<(), NoMemory>
    ensures { OnOk result (code.new.items ≡ code.old.items ++ emitted.moved_code bank.now rs rd) }
{
    append_steps([get_register(bank, rs), put_register(bank, rd)], code)
}

/// What is on the stack is tested, and 1 or 0 goes to a register.
pub fn append_chosen(
    bank: &Bank,
    test: BranchName,
    rd: u8,
    code: &mut Vec<Step>,
) -> Result<(), NoMemory>
    ensures { OnOk result (code.new.items ≡ code.old.items
        ++ emitted.chosen_code bank.now test rd) }
{
    append_steps(
        [
            Step::Skips(test, 2),
            push_word(0),
            Step::Skips(BranchName::Goto, 1),
            push_word(1),
            put_register(bank, rd),
        ],
        code,
    )
}

/// Two words are on the stack above a sum or difference, which overflows where both have their top bits set. Then it is a fault,
/// and otherwise it goes to a register.
pub fn append_overflow(
    bank: &Bank,
    rd: u8,
    at: u32,
    word: u32,
    code: &mut Vec<Step>,
) -> Result<(), NoMemory>
    ensures { OnOk result (code.new.items ≡ code.old.items
        ++ emitted.overflow_code bank.now rd at word) }
{
    append_steps(
        [
            arithmetic(IntArithmetic::Iand),
            Step::Skips(BranchName::Ifge, FAULT_STEPS),
        ],
        code,
    )?;
    append_fault(OVERFLOW, at, word, code)?;
    code.push(put_register(bank, rd))?;
    Ok(())
}
