//! Instructions that push constants.
ghost use Rattle.std.specs.Prelude.{◌≡◌};
ghost use Rattle.class_definition.specs.PoolChecks.{entry_at};
ghost use Rattle.class_definition.specs.MemberNames.{class_name_at};
ghost use Rattle.class_definition.specs.Linking as linking;

use crate::kinds::is_ints;
use class_names::class_name_at;
use constant_pool::{Entry, entry_of};
use jvm_code::{Class, Iconst, LocalName, ShortIndex};
use jvm_definition::{ArrayKind, Constant, Instruction, LocalKind, ReturnName};
use nv_words::unsigned;

/// The word that `iconst_<n>` pushes.
pub fn iconst_word(name: Iconst) -> u32
    ensures { result ≡ linking.iconst_word name }
{
    match name {
        Iconst::M1 => 0xFFFF_FFFF,
        Iconst::Zero => 0,
        Iconst::One => 1,
        Iconst::Two => 2,
        Iconst::Three => 3,
        Iconst::Four => 4,
        Iconst::Five => 5,
    }
}

/// One that pushes an int.
pub fn pushed_int(n: i32) -> Instruction
    ensures { result ≡ linking.pushed_int n }
{
    Instruction::Push(Constant::Int(unsigned(n)))
}

/// `ldc`, of a class with a number.
pub fn word_constant(number: u16, class: &Class, slot: u16) -> Instruction
    ensures { result ≡ linking.word_constant number (entry_at class.now.pool slot) }
{
    match entry_of(class.pool.as_slice(), slot) {
        Some(Entry::Integer(n)) => pushed_int(*n),
        Some(Entry::Text(text)) => Instruction::Push(Constant::Text(number, *text)),
        _ => Instruction::Wrong,
    }
}

/// `ldc2_w`.
pub fn long_constant(class: &Class, slot: u16) -> Instruction
    ensures { result ≡ linking.long_constant (entry_at class.now.pool slot) }
{
    match entry_of(class.pool.as_slice(), slot) {
        Some(Entry::Long(n)) => Instruction::Push(Constant::Long(n.cast_unsigned())),
        _ => Instruction::Wrong,
    }
}

/// `anewarray`: an array of arrays of ints alone.
pub fn new_pages(class: &Class, slot: u16) -> Instruction
    ensures { result ≡ linking.array_instruction (class_name_at class.now slot) }
{
    if is_ints(class_name_at(class, slot)) {
        Instruction::NewArray(ArrayKind::Pages)
    } else {
        Instruction::Wrong
    }
}

/// A load or store of a local variable.
pub fn local_instruction(name: LocalName, index: u8) -> Instruction
    ensures { result ≡ linking.local_instruction name index }
{
    match name {
        LocalName::Iload => Instruction::Load(LocalKind::Int, index),
        LocalName::Aload => Instruction::Load(LocalKind::Reference, index),
        LocalName::Istore => Instruction::Store(LocalKind::Int, index),
        LocalName::Astore => Instruction::Store(LocalKind::Reference, index),
    }
}

/// The local variable that an opcode names.
pub fn short_index(index: ShortIndex) -> u8
    ensures { result ≡ linking.short_index index }
{
    match index {
        ShortIndex::Zero => 0,
        ShortIndex::One => 1,
        ShortIndex::Two => 2,
        ShortIndex::Three => 3,
    }
}

/// A return, which is of the kind of its method.
pub fn return_instruction(gives: bool, name: ReturnName) -> Instruction
    ensures { result ≡ linking.return_instruction gives name }
{
    match name {
        ReturnName::Ireturn if gives => Instruction::Return(ReturnName::Ireturn),
        ReturnName::Return if !gives => Instruction::Return(ReturnName::Return),
        _ => Instruction::Wrong,
    }
}
