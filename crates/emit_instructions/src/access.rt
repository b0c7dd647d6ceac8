//! Steps that push words and reach registers.
ghost use Rattle.std.specs.Prelude.{◌≡◌, ◌≤◌, ◌++◌, OnOk};
ghost use Rattle.emit_instructions.specs.Access as emitted;

use crate::NoMemory;
use crate::bank::Bank;
use crate::fields::register_field;
use emit_steps::Step;
use jvm_definition::{Constant, Instruction, IntArithmetic, Kind, LocalKind, StackName};

/// The top bit of a word.
const TOP_BIT: u32 = 0x8000_0000;

/// A word is pushed.
pub fn push_word(word: u32) -> Step
    ensures { result ≡ emitted.push_word word }
{
    Step::Does(Instruction::Push(Constant::Int(word)))
}

/// A field of ints is pushed.
pub fn get_field(field: u32) -> Step
    ensures { result ≡ emitted.get_field field }
{
    Step::Does(Instruction::Get(field, Kind::Int))
}

/// What is on the stack goes to a field of ints.
pub fn put_field(field: u32) -> Step
    ensures { result ≡ emitted.put_field field }
{
    Step::Does(Instruction::Put(field, Kind::Int))
}

/// A register is pushed, 0 for register 0.
pub fn get_register(bank: &Bank, r: u8) -> Step
    ensures { result ≡ emitted.get_register bank.now r }
{
    if r == 0 {
        push_word(0)
    } else if bank.keeps(r) {
        Step::Does(Instruction::Load(LocalKind::Int, r))
    } else {
        get_field(register_field(r))
    }
}

/// What is on the stack goes to a register; it is lost for register 0.
pub fn put_register(bank: &Bank, r: u8) -> Step
    ensures { result ≡ emitted.put_register bank.now r }
{
    if r == 0 {
        Step::Does(Instruction::Stack(StackName::Pop))
    } else if bank.keeps(r) {
        Step::Does(Instruction::Store(LocalKind::Int, r))
    } else {
        put_field(register_field(r))
    }
}

/// An operation on two ints.
pub fn arithmetic(name: IntArithmetic) -> Step
    ensures { result ≡ emitted.arithmetic name }
{
    Step::Does(Instruction::IntArithmetic(name))
}

/// Appends up to 64 steps.
///
/// # Errors
/// Out of memory for them.
pub fn append_steps<const N: usize>(steps: [Step; N], code: &mut Vec<Step>) -> Result<(), NoMemory>
    requires { N ≤ 64 }
    ensures { OnOk result (code.new.items ≡ code.old.items ++ steps.entry) }
{
    for step in steps {
        code.push(step)?;
    }
    Ok(())
}

/// A register is pushed with its top bit turned, so that signed comparisons compare without signs.
pub fn append_turned(bank: &Bank, r: u8, code: &mut Vec<Step>) -> Result<(), NoMemory>
    ensures { OnOk result (code.new.items ≡ code.old.items ++ emitted.get_turned bank.now r) }
{
    append_steps(
        [
            get_register(bank, r),
            push_word(TOP_BIT),
            arithmetic(IntArithmetic::Iadd),
        ],
        code,
    )
}

/// A word with its top bit turned.
pub fn turned(word: u32) -> u32
    ensures { result ≡ emitted.turned word }
{
    word.wrapping_add(TOP_BIT)
}
