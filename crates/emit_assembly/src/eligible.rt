//! Which instructions and switches have an operation.
ghost use Rattle.std.specs.Prelude.{◌≡◌, ◌+ℤ◌, ◌-ℤ◌, pos, nat_lt, length};
ghost use Rattle.std.specs.Int.{w32};
ghost use Rattle.class_definition.specs.Format.{fits_signed};
ghost use Rattle.emit_assembly.specs.Assembling as assembling;

use crate::references::References;
use jvm_definition::{Instruction, TableSwitch};

/// Whether an instruction has an operation: it is no branch and no switch, what it names has a slot, and what it adds is a byte.
pub fn has_operation(instruction: &Instruction, references: &References) -> bool
    ensures { result ≡ assembling.has_operation references.now instruction.now }
{
    match instruction {
        Instruction::Increment(_, by) => is_signed_byte(*by),
        Instruction::Get(field, _) | Instruction::Put(field, _) => has_field(references, *field),
        Instruction::Call(method) => has_method(references, *method),
        Instruction::Branch(_, _)
        | Instruction::TableSwitch(_)
        | Instruction::LookupSwitch(_)
        | Instruction::Wrong => false,
        _ => true,
    }
}

// A word from -128 to 127.
fn is_signed_byte(word: u32) -> bool
    ensures { result ≡ assembling.is_signed_byte word }
{
    word < 128 || word >= 0xFFFF_FF80
}

fn has_field(references: &References, field: u32) -> bool
    ensures { result ≡ nat_lt field (length references.now.fields) }
{
    (field as usize) < references.fields.as_slice().len()
}

fn has_method(references: &References, method: u32) -> bool
    ensures { result ≡ assembling.has_method references.now method }
{
    references.first_method <= method
        && ((method - references.first_method) as usize) < references.methods.as_slice().len()
}

/// Whether a switch has an operation: it has a target, and its greatest key is a signed word.
pub fn switch_has_operation(switch: &TableSwitch) -> bool
    ensures { result ≡ assembling.switch_has_operation switch.now }
{
    has_form(switch.default, switch.low, switch.targets.as_slice())
}

fn has_form(default: u32, low: i32, targets: &[u32]) -> bool
    ensures { result ≡ assembling.switch_has_operation
        (record { default = default; low = low; targets = targets.now }) }
{
    if targets.is_empty() {
        false
    } else {
        is_signed_word(last_key(low, targets))
    }
}

// The greatest key, where there is a target.
fn last_key(low: i32, targets: &[u32]) -> i64
    ensures { result ≡ (low +ℤ pos (length targets.now)) -ℤ pos 1 }
{
    i64::from(low) + targets.len() as i64 - 1
}

fn is_signed_word(n: i64) -> bool
    ensures { result ≡ fits_signed w32 n }
{
    i64::from(i32::MIN) <= n && n <= i64::from(i32::MAX)
}
