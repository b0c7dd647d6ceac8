//! Parts of the code that makes a program's memory.
ghost use Rattle.std.specs.Prelude.{◌≡◌, ◌++◌, OnOk};
ghost use Rattle.emit_steps.specs.Returning.{returns};
ghost use Rattle.emit_loading.specs.Parts as emitted;

use crate::NoMemory;
use emit_instructions::append_steps;
use emit_instructions::fields::{READABLE, WRITABLE};
use emit_steps::Step;
use jvm_definition::{BranchName, Instruction, IntShift, Kind, LocalKind, ReturnName};

/// A local variable that holds an int is pushed.
pub fn load(i: u8) -> Step
    ensures { result ≡ emitted.load i }
{
    Step::Does(Instruction::Load(LocalKind::Int, i))
}

/// An int goes to a local variable.
pub fn store(i: u8) -> Step
    ensures { result ≡ emitted.store i }
{
    Step::Does(Instruction::Store(LocalKind::Int, i))
}

/// A local variable that holds a reference is pushed.
pub fn load_reference(i: u8) -> Step
    ensures { result ≡ emitted.load_reference i }
{
    Step::Does(Instruction::Load(LocalKind::Reference, i))
}

pub fn shift_left() -> Step
    ensures { result ≡ emitted.shift_left }
{
    Step::Does(Instruction::IntShift(IntShift::Ishl))
}

/// A method is called, by its number in the program.
pub fn call(method: u32) -> Step
    ensures { result ≡ emitted.call method }
{
    Step::Does(Instruction::Call(method))
}

pub fn returns() -> Step
    ensures { result ≡ returns }
{
    Step::Does(Instruction::Return(ReturnName::Return))
}

/// The table of the pages that can be read is pushed.
pub fn readable_table() -> Step
    ensures { result ≡ emitted.readable_table }
{
    Step::Does(Instruction::Get(READABLE, Kind::Pages))
}

/// The table of the pages that can be written is pushed.
pub fn writable_table() -> Step
    ensures { result ≡ emitted.writable_table }
{
    Step::Does(Instruction::Get(WRITABLE, Kind::Pages))
}

/// The character of the text in a local variable at a place, which is in another one and goes on by 1, is pushed.
pub fn append_next_character(text: u8, place: u8, code: &mut Vec<Step>) -> Result<(), NoMemory>
    ensures { OnOk result (code.new.items ≡ code.old.items ++ emitted.next_character text place) }
{
    append_steps(
        [
            load_reference(text),
            load(place),
            Step::Does(Instruction::CharAt),
            Step::Does(Instruction::Increment(place, 1)),
        ],
        code,
    )
}

/// The place is after the text: that many of the following steps are passed over.
pub fn append_ended(text: u8, place: u8, over: u32, code: &mut Vec<Step>) -> Result<(), NoMemory>
    ensures { OnOk result (code.new.items ≡ code.old.items ++ emitted.ended_code text place over) }
{
    append_steps(
        [
            load(place),
            load_reference(text),
            Step::Does(Instruction::Length),
            Step::Skips(BranchName::IfIcmpge, over),
        ],
        code,
    )
}
