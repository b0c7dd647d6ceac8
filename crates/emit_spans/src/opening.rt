//! The beginning of the method: which word the guest is at.
ghost use Rattle.std.specs.Prelude.{◌≡◌, ◌+◌, ◌*◌, ◌%◌, ◌<◌, ◌++◌, OnOk};
ghost use Rattle.emit_steps.specs.Widths.{size};
ghost use Rattle.emit_spans.specs.Opening as emitted;

use crate::NoMemory;
use emit_instructions::{append_steps, arithmetic, fields, get_field, push_word};
use emit_steps::{Step, width};
use jvm_definition::{Instruction, IntArithmetic, IntShift, StackName};

/// Appends the code that pushes the number of the word at which the guest is, counted from the span's first word, whose address is
/// given. After it is the switch, at an offset that leaves 3 modulo 4 where this code is at the method's start.
///
/// # Errors
/// Out of memory for the code.
pub fn append_opening(first: u32, code: &mut Vec<Step>) -> Result<(), NoMemory>
    ensures { OnOk result (code.new.items ≡ code.old.items ++ emitted.opening first) }
{
    append_padding(index_bytes(first), code)?;
    append_index(first, code)
}

/// How many bytes the opening has.
pub fn opening_bytes(first: u32) -> u32
    ensures value { result ≡ size (emitted.opening first) }
    ensures few { result < 20 }
{
    let bytes = index_bytes(first);
    nops(bytes) + bytes
}

fn append_padding(bytes: u32, code: &mut Vec<Step>) -> Result<(), NoMemory>
    requires { bytes < 20 }
    ensures { OnOk result (code.new.items ≡ code.old.items ++ emitted.padding bytes) }
{
    for _ in 0..nops(bytes) {
        code.push(Step::Does(Instruction::Nop))?;
    }
    Ok(())
}

fn nops(bytes: u32) -> u32
    requires { bytes < 20 }
    ensures { result ≡ (3 * bytes + 3) % 4 }
{
    (3 * bytes + 3) % 4
}

fn index_bytes(first: u32) -> u32
    ensures value { result ≡ size (emitted.index_code first) }
    ensures few { result < 16 }
{
    12 + width(&push_word(first))
}

fn append_index(first: u32, code: &mut Vec<Step>) -> Result<(), NoMemory>
    ensures { OnOk result (code.new.items ≡ code.old.items ++ emitted.index_code first) }
{
    append_steps(
        [
            get_field(fields::PC),
            push_word(first),
            arithmetic(IntArithmetic::Isub),
        ],
        code,
    )?;
    append_turned(code)
}

// What is on the stack, as a word turned to the right by two bits.
fn append_turned(code: &mut Vec<Step>) -> Result<(), NoMemory>
    ensures { OnOk result (code.new.items ≡ code.old.items ++ emitted.turned_code) }
{
    append_steps(
        [
            Step::Does(Instruction::Stack(StackName::Dup)),
            push_word(2),
            Step::Does(Instruction::IntShift(IntShift::Iushr)),
            Step::Does(Instruction::Stack(StackName::Swap)),
            push_word(30),
            Step::Does(Instruction::IntShift(IntShift::Ishl)),
            arithmetic(IntArithmetic::Ior),
        ],
        code,
    )
}
