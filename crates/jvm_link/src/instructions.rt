//! Instructions with what they name.
ghost use Rattle.std.specs.Prelude.{◌≡◌};
ghost use Rattle.class_names.specs.Keys.{IsNumbered, classes_in};
ghost use Rattle.class_definition.specs.Linking as linking;

use crate::constants::{
    iconst_word, local_instruction, pushed_int, return_instruction, short_index, word_constant,
};
use crate::pool_instructions::pool_instruction;
use class_names::{Names, NumberedClass};
use jvm_code::Op;
use jvm_definition::{ArrayKind, BranchName, Constant, Instruction};
use nv_words::unsigned;

/// The instruction of a method of a class with a number; the method gives an int or nothing.
pub fn linked_instruction(
    names: &Names,
    number: u16,
    class: &NumberedClass,
    gives: bool,
    op: Op,
) -> Instruction
    requires { IsNumbered names.now.numbered.texts.keys class.now }
    ensures { result ≡ linking.linked_instruction (classes_in names.now.numbered.classes.items)
        number class.now.class.now gives op }
{
    match op {
        Op::Nop => Instruction::Nop,
        Op::AconstNull => Instruction::Push(Constant::Null),
        Op::Iconst(name) => Instruction::Push(Constant::Int(iconst_word(name))),
        Op::Bipush(n) => pushed_int(i32::from(n)),
        Op::Sipush(n) => pushed_int(i32::from(n)),
        Op::Ldc(slot) => word_constant(number, class.class, u16::from(slot)),
        Op::Pool(name, slot) => pool_instruction(names, number, class, name, slot),
        Op::Local(name, index) => local_instruction(name, index),
        Op::ShortLocal(name, index) => local_instruction(name, short_index(index)),
        Op::Array(name) => Instruction::Array(name),
        Op::Stack(name) => Instruction::Stack(name),
        Op::IntArithmetic(name) => Instruction::IntArithmetic(name),
        Op::IntDivision(name) => Instruction::IntDivision(name),
        Op::IntShift(name) => Instruction::IntShift(name),
        Op::LongArithmetic(name) => Instruction::LongArithmetic(name),
        Op::LongDivision(name) => Instruction::LongDivision(name),
        Op::LongShift(name) => Instruction::LongShift(name),
        Op::Iinc(index, n) => Instruction::Increment(index, unsigned(i32::from(n))),
        Op::Convert(name) => Instruction::Convert(name),
        Op::Lcmp => Instruction::LongCompare,
        Op::Branch(name, target) => Instruction::Branch(name, target),
        Op::GotoW(target) => Instruction::Branch(BranchName::Goto, target),
        Op::TableSwitch(switch) => Instruction::TableSwitch(switch),
        Op::LookupSwitch(switch) => Instruction::LookupSwitch(switch),
        Op::Give(name) => return_instruction(gives, name),
        Op::Newarray => Instruction::NewArray(ArrayKind::Ints),
        Op::Arraylength => Instruction::ArrayLength,
    }
}
