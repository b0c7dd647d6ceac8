//! Instructions from bytes.
ghost use Rattle.std.specs.Prelude.{◌≡◌, ◌<◌, ◌^◌};
ghost use Rattle.class_format.specs.Gives.{Gives};
ghost use Rattle.class_definition.specs.Instructions as format;

use crate::opcodes::{branch_name_of, local_name_of, plain_by_opcode, pool_name_of};
use crate::reading::{near_of, wide_of};
use crate::switch_reading::{lookup_switch_of, table_switch_of};
use class_definition::Op;
use class_format::{
    Failure, byte_of, exact_byte_of, half_of, missed, signed_byte_of, signed_half_of,
};
use jvm_definition::Kept;
use std::alloc::Global;

const OUTSIDE: u32 = 1;

const CUT: u32 = 2;

/// The kind of arrays of ints (JVM Specification, 6.5, newarray).
const INTS: u8 = 10;

/// The instruction at the front, which is at a place of the code. Whatever is at fault within it is at fault at its opcode.
pub fn instruction_of(alloc: Global, at: u32, bytes: &[u8]) -> Result<(Op, &[u8]), Failure>
    requires { at < 2 ^ 16 }
    ensures { Gives (λ x. (x.0, x.1.now)) result ((format.instruction at).read bytes.now) }
{
    match inner_of(alloc, at, bytes) {
        Ok(x) => Ok(x),
        Err(Failure::Missed(miss)) => Err(missed(miss.kind, bytes)),
        Err(Failure::NoMemory) => Err(Failure::NoMemory),
    }
}

fn inner_of(alloc: Global, at: u32, bytes: &[u8]) -> Result<(Op, &[u8]), Failure>
    requires { at < 2 ^ 16 }
    ensures { Gives (λ x. (x.0, x.1.now)) result (format.inner at bytes.now) }
{
    let (opcode, rest) = byte_of(CUT, bytes)?;
    operands_of(alloc, at, opcode, rest)
}

#[tactic(auto, unfolding(class_definition::specs::Instructions::operands))]
fn operands_of(alloc: Global, at: u32, opcode: u8, bytes: &[u8]) -> Result<(Op, &[u8]), Failure>
    requires { at < 2 ^ 16 }
    ensures { Gives (λ x. (x.0, x.1.now)) result (format.operands at opcode bytes.now) }
{
    if let Some(op) = plain_by_opcode(opcode) {
        return Ok((op, bytes));
    }
    if let Some(name) = local_name_of(opcode) {
        let (index, rest) = byte_of(CUT, bytes)?;
        return Ok((Op::Local(name, index), rest));
    }
    if let Some(name) = branch_name_of(opcode) {
        let (target, rest) = near_of(at, bytes)?;
        return Ok((Op::Branch(name, target), rest));
    }
    if let Some(name) = pool_name_of(opcode) {
        let (slot, rest) = half_of(CUT, bytes)?;
        return Ok((Op::Pool(name, slot), rest));
    }
    single_of(alloc, at, opcode, bytes)
}

#[tactic(auto, unfolding(class_definition::specs::Instructions::single))]
fn single_of(alloc: Global, at: u32, opcode: u8, bytes: &[u8]) -> Result<(Op, &[u8]), Failure>
    requires { at < 2 ^ 16 }
    ensures { Gives (λ x. (x.0, x.1.now)) result (format.single at opcode bytes.now) }
{
    match opcode {
        16 => {
            let (number, rest) = signed_byte_of(CUT, bytes)?;
            Ok((Op::Bipush(number), rest))
        }
        17 => {
            let (number, rest) = signed_half_of(CUT, bytes)?;
            Ok((Op::Sipush(number), rest))
        }
        18 => {
            let (slot, rest) = byte_of(CUT, bytes)?;
            Ok((Op::Ldc(slot), rest))
        }
        132 => {
            let (index, rest) = byte_of(CUT, bytes)?;
            let (number, rest) = signed_byte_of(CUT, rest)?;
            Ok((Op::Iinc(index, number), rest))
        }
        170 => {
            let (switch, rest) = table_switch_of(alloc, at, bytes)?;
            Ok((Op::TableSwitch(Kept::new(alloc, switch)?), rest))
        }
        171 => {
            let (switch, rest) = lookup_switch_of(alloc, at, bytes)?;
            Ok((Op::LookupSwitch(Kept::new(alloc, switch)?), rest))
        }
        188 => {
            let rest = exact_byte_of(CUT, OUTSIDE, INTS, bytes)?;
            Ok((Op::Newarray, rest))
        }
        200 => {
            let (target, rest) = wide_of(at, bytes)?;
            Ok((Op::GotoW(target), rest))
        }
        _ => Err(missed(OUTSIDE, bytes)),
    }
}
