//! Instructions as bytes.
ghost use Rattle.std.specs.Prelude.{◌≡◌, ◌<◌, ◌^◌, ◌++◌, true, OnOk};
ghost use Rattle.class_definition.specs.Instructions as format;

use crate::encode::NoMemory;
use crate::number_writing::{append_byte, append_half, append_signed_byte, append_signed_half};
use crate::opcode::opcode_of;
use crate::switch_writing::{append_lookup_switch, append_table_switch};
use crate::target_writing::{append_near, append_wide};
use class_definition::Op;

/// The kind of arrays of ints (JVM Specification, 6.5, newarray).
const INTS: u8 = 10;

/// Appends an instruction that is at a place.
pub fn append_instruction(code: &mut Vec<u8>, at: u32, op: &Op) -> Result<(), NoMemory>
    requires low { at < 2 ^ 16 }
    requires fits { (format.instruction at).fits op.now ≡ true }
    ensures { OnOk result (code.new.items ≡ code.old.items
        ++ (format.instruction at).spell op.now) }
{
    code.push(opcode_of(op))?;
    append_operands(code, at, op)
}

fn append_operands(code: &mut Vec<u8>, at: u32, op: &Op) -> Result<(), NoMemory>
    requires low { at < 2 ^ 16 }
    requires fits { format.operands_fit at op.now ≡ true }
    ensures { OnOk result (code.new.items ≡ code.old.items ++ format.operand_bytes at op.now) }
{
    match op {
        Op::Bipush(number) => append_signed_byte(code, *number),
        Op::Sipush(number) => append_signed_half(code, *number),
        Op::Ldc(slot) => append_byte(code, *slot),
        Op::Pool(_, slot) => append_half(code, *slot),
        Op::Local(_, index) => append_byte(code, *index),
        Op::Iinc(index, number) => append_iinc(code, *index, *number),
        Op::Branch(_, target) => append_near(code, at, *target),
        Op::GotoW(target) => append_wide(code, at, *target),
        Op::TableSwitch(switch) => append_table_switch(code, at, switch.get()),
        Op::LookupSwitch(switch) => append_lookup_switch(code, at, switch.get()),
        Op::Newarray => append_byte(code, INTS),
        _ => Ok(()),
    }
}

fn append_iinc(code: &mut Vec<u8>, index: u8, number: i8) -> Result<(), NoMemory>
    ensures { OnOk result (code.new.items ≡ code.old.items
        ++ format.byte_pair.spell (index, number)) }
{
    append_byte(code, index)?;
    append_signed_byte(code, number)
}
