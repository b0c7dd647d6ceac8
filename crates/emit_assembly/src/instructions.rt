//! Instructions other than those that push constants.
ghost use Rattle.std.specs.Prelude.{◌≡◌, ℕ, true, false, IsTrue, ◌-◌, ◌<◌, length, slice_index, nat_lt};
ghost use Rattle.class_definition.specs.Instructions.{operands_fit};
ghost use Rattle.class_definition.specs.declared.op.Op.TheVariants as ops;
ghost use Rattle.run_definition.specs.Words.{signed_of};
ghost use Rattle.emit_assembly.specs.Assembling.{has_operation, has_method, is_signed_byte};
ghost use Rattle.emit_assembly.specs.Operations.{operation_of, is_push};

use crate::locals::{load, store};
use crate::references::References;
use jvm_code::{Op, PoolName};
use jvm_definition::{ArrayKind, Instruction};
use nv_words::signed;

/// The operation of an instruction that needs no constant.
pub fn operation_of(instruction: &Instruction, references: &References) -> Op
    requires form { IsTrue (has_operation references.now instruction.now) }
    requires other { is_push instruction.now ≡ false }
    ensures value { result ≡ operation_of references.now instruction.now }
    ensures fits { (at : ℕ) → operands_fit at result ≡ true }
{
    match instruction {
        Instruction::Nop => Op::Nop,
        Instruction::Load(kind, i) => load(*kind, *i),
        Instruction::Store(kind, i) => store(*kind, *i),
        Instruction::Array(name) => Op::Array(*name),
        Instruction::Stack(name) => Op::Stack(*name),
        Instruction::IntArithmetic(name) => Op::IntArithmetic(*name),
        Instruction::IntDivision(name) => Op::IntDivision(*name),
        Instruction::IntShift(name) => Op::IntShift(*name),
        Instruction::LongArithmetic(name) => Op::LongArithmetic(*name),
        Instruction::LongDivision(name) => Op::LongDivision(*name),
        Instruction::LongShift(name) => Op::LongShift(*name),
        Instruction::Increment(i, by) => increment(*i, *by),
        Instruction::Convert(name) => Op::Convert(*name),
        Instruction::LongCompare => Op::Lcmp,
        Instruction::Get(field, _) => named(PoolName::Getstatic, field_slot(references, *field)),
        Instruction::Put(field, _) => named(PoolName::Putstatic, field_slot(references, *field)),
        Instruction::Length => named(PoolName::Invokevirtual, references.string_length),
        Instruction::CharAt => named(PoolName::Invokevirtual, references.string_char_at),
        Instruction::Call(method) => named(
            PoolName::Invokestatic,
            method_slot(references, *method),
        ),
        Instruction::CallHost => named(PoolName::Invokestatic, references.host_call),
        Instruction::FaultHost => named(PoolName::Invokestatic, references.host_fault),
        Instruction::Return(name) => Op::Give(*name),
        Instruction::NewArray(ArrayKind::Ints) => Op::Newarray,
        Instruction::NewArray(ArrayKind::Pages) => named(
            PoolName::Anewarray,
            references.ints_class,
        ),
        Instruction::ArrayLength => Op::Arraylength,
        Instruction::Push(_)
        | Instruction::Branch(_, _)
        | Instruction::TableSwitch(_)
        | Instruction::LookupSwitch(_)
        | Instruction::Wrong => unreachable!(),
    }
}

// An instruction that names what stands in a slot.
fn named(name: PoolName, slot: u16) -> Op
    ensures value { result ≡ ops.Pool name slot }
    ensures fits { (at : ℕ) → operands_fit at result ≡ true }
{
    Op::Pool(name, slot)
}

fn field_slot(references: &References, field: u32) -> u16
    requires { IsTrue (nat_lt field (length references.now.fields)) }
    ensures { result ≡ slice_index references.now.fields field }
{
    references.fields.as_slice()[field as usize]
}

fn method_slot(references: &References, method: u32) -> u16
    requires { IsTrue (has_method references.now method) }
    ensures { result ≡ slice_index references.now.methods (method - references.now.first_method) }
{
    references.methods.as_slice()[(method - references.first_method) as usize]
}

fn increment(i: u8, by: u32) -> Op
    requires { IsTrue (is_signed_byte by) }
    ensures value { result ≡ ops.Iinc i (signed_of by) }
    ensures fits { (at : ℕ) → operands_fit at result ≡ true }
{
    Op::Iinc(i, signed(by) as i8)
}
