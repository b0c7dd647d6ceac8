//! Instructions with a slot of the constant pool.
ghost use Rattle.std.specs.Prelude.{◌≡◌, ℕ, if◌then◌else◌};
ghost use Rattle.class_definition.specs.PoolChecks.{entry_at};
ghost use Rattle.class_definition.specs.NameGrammar.{same_text};
ghost use Rattle.jvm_definition.specs.declared.kind.Kind.{Kind};
ghost use Rattle.jvm_definition.specs.declared.instruction.Instruction.{Instruction};
ghost use Rattle.class_definition.specs.MemberNames as words;
ghost use Rattle.class_definition.specs.Linking as linking;
ghost use Rattle.jvm_link.specs.Fields.{field_made};
ghost use Rattle.class_names.specs.Keys.{IsNumbered, classes_in};

use crate::constants::{long_constant, new_pages, word_constant};
use crate::kinds::kind_of;
use class_names::{
    Names, NumberedClass, class_name_at, is_char_at, is_host, is_host_call, is_host_fault,
    is_length, is_string, signature_at,
};
use constant_pool::{Entry, entry_of};
use jvm_code::PoolName;
use jvm_definition::{Instruction, Kind};

/// What an instruction with a slot is, in a class with a number.
pub fn pool_instruction(
    names: &Names,
    number: u16,
    class: &NumberedClass,
    name: PoolName,
    slot: u16,
) -> Instruction
    requires { IsNumbered names.now.numbered.texts.keys class.now }
    ensures { result ≡ linking.pool_instruction (classes_in names.now.numbered.classes.items)
        number class.now.class.now name slot }
{
    match name {
        PoolName::LdcW => word_constant(number, class.class, slot),
        PoolName::Ldc2W => long_constant(class.class, slot),
        PoolName::Getstatic => get(names, class, slot),
        PoolName::Putstatic => put(names, class, slot),
        PoolName::Invokevirtual => string_call(class, slot),
        PoolName::Invokestatic => static_call(names, class, slot),
        PoolName::Anewarray => new_pages(class.class, slot),
    }
}

fn get(names: &Names, class: &NumberedClass, slot: u16) -> Instruction
    requires { IsNumbered names.now.numbered.texts.keys class.now }
    ensures { result ≡ linking.field_instruction (classes_in names.now.numbered.classes.items)
        Instruction.Get class.now.class.now (entry_at class.now.class.now.pool slot) }
{
    match field(names, class, slot) {
        Some((number, kind)) => Instruction::Get(number, kind),
        None => Instruction::Wrong,
    }
}

fn put(names: &Names, class: &NumberedClass, slot: u16) -> Instruction
    requires { IsNumbered names.now.numbered.texts.keys class.now }
    ensures { result ≡ linking.field_instruction (classes_in names.now.numbered.classes.items)
        Instruction.Put class.now.class.now (entry_at class.now.class.now.pool slot) }
{
    match field(names, class, slot) {
        Some((number, kind)) => Instruction::Put(number, kind),
        None => Instruction::Wrong,
    }
}

// The field in a slot, with its type.
fn field(names: &Names, class: &NumberedClass, slot: u16) -> Option<(u32, Kind)>
    requires { IsNumbered names.now.numbered.texts.keys class.now }
    ensures { (make : ℕ → Kind → Instruction)
        → linking.field_instruction (classes_in names.now.numbered.classes.items)
        make class.now.class.now (entry_at class.now.class.now.pool slot)
        ≡ field_made make result }
{
    match entry_of(class.class.pool.as_slice(), slot) {
        Some(Entry::FieldRef(owner, name)) => typed_field(names, class, *owner, *name),
        _ => None,
    }
}

fn typed_field(names: &Names, class: &NumberedClass, owner: u16, name: u16) -> Option<(u32, Kind)>
    requires { IsNumbered names.now.numbered.texts.keys class.now }
    ensures { (make : ℕ → Kind → Instruction)
        → linking.field_of_number make (words.field_number (classes_in names.now.numbered.classes.items)
        (words.reference_to (words.class_name_at class.now.class.now owner)
        (words.signature_at class.now.class.now name)))
        (words.signature_at class.now.class.now name) ≡ field_made make result }
{
    let number = names.field_number(class, owner, name)?;
    Some((number, kind_of(signature_at(class.class, name).1)))
}

// A call of a method of strings.
fn string_call(class: &NumberedClass, slot: u16) -> Instruction
    ensures { result ≡ linking.call_instruction linking.string_call class.now.class.now
        (entry_at class.now.class.now.pool slot) }
{
    match entry_of(class.class.pool.as_slice(), slot) {
        Some(Entry::MethodRef(owner, name)) if is_string(class_name_at(class.class, *owner)) => {
            let (method, descriptor) = signature_at(class.class, *name);
            string_method(method, descriptor)
        }
        _ => Instruction::Wrong,
    }
}

fn string_method(method: &[u16], descriptor: &[u16]) -> Instruction
    ensures { result ≡ linking.string_method (words.signature method.now descriptor.now) }
{
    if is_length(method, descriptor) {
        Instruction::Length
    } else if is_char_at(method, descriptor) {
        Instruction::CharAt
    } else {
        Instruction::Wrong
    }
}

// A call of a method of the classes, or of the host.
fn static_call(names: &Names, class: &NumberedClass, slot: u16) -> Instruction
    requires { IsNumbered names.now.numbered.texts.keys class.now }
    ensures { result
        ≡ linking.call_instruction
        (linking.static_call (classes_in names.now.numbered.classes.items)) class.now.class.now
        (entry_at class.now.class.now.pool slot) }
{
    match entry_of(class.class.pool.as_slice(), slot) {
        Some(Entry::MethodRef(owner, name)) => method_call(names, class, *owner, *name),
        _ => Instruction::Wrong,
    }
}

fn method_call(names: &Names, class: &NumberedClass, owner: u16, name: u16) -> Instruction
    requires { IsNumbered names.now.numbered.texts.keys class.now }
    ensures { result ≡ linking.static_call (classes_in names.now.numbered.classes.items)
        (words.reference_to (words.class_name_at class.now.class.now owner)
        (words.signature_at class.now.class.now name)) }
{
    if is_host(class_name_at(class.class, owner)) {
        let (method, descriptor) = signature_at(class.class, name);
        host_method(method, descriptor)
    } else {
        match names.method_number(class, owner, name) {
            Some(number) => Instruction::Call(number),
            None => Instruction::Wrong,
        }
    }
}

fn host_method(method: &[u16], descriptor: &[u16]) -> Instruction
    ensures { result ≡ linking.host_method (words.signature method.now descriptor.now) }
{
    if is_host_call(method, descriptor) {
        Instruction::CallHost
    } else if is_host_fault(method, descriptor) {
        Instruction::FaultHost
    } else {
        Instruction::Wrong
    }
}
