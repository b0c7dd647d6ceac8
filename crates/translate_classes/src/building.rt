//! Calls of a class builder where there is room and all is lawful: they fail only if memory runs out.
ghost use Rattle.std.specs.Prelude.{◌≡◌, ◌≢◌, ◌+◌, ◌<◌, ◌≤◌, true, false, [], ◌∷◌, ◌++◌, length, Ok, Err, IfOk, OnOk};
ghost use Rattle.class_definition.specs.MemberNames.{object_name};
ghost use Rattle.emit_assembly.specs.Assembling.{slots_of};
ghost use Rattle.emit_classes.specs.declared.error.BuildError.TheVariants.{Full, Unlawful};
ghost use Rattle.emit_classes.specs.Lawful.{has_class};
ghost use Rattle.emit_classes.specs.Code.{is_code};
ghost use Rattle.emit_classes.specs.Named.{IsClassAt, IsFieldAt, IsMethodAt, IsTextAt};
ghost use Rattle.emit_classes.specs.Built.{AddsField, AddsMethod, GrowsPool, is_long_text};
ghost use Rattle.emit_classes.specs.Mentioned.{Mentions, MentionsOf, OfClass, field_mention, mentioned, method_mention};
ghost use Rattle.translate_classes.specs.Room.{can_name_class, can_name_field, can_name_method, is_own_method, is_own_name};

use crate::NoMemory;
use emit_assembly::References;
use emit_classes::{BuildError, ClassBuilder};
use emit_steps::Step;
use std::alloc::{AllocError, Global};

// What a call of a class builder gave that cannot have failed but for want of memory.
fn sure<T: Drop>(answer: Result<T, BuildError>) -> Result<T, NoMemory>
    requires room { answer ≢ Err Full }
    requires lawful { answer ≢ Err Unlawful }
    ensures { IfOk result (λ value. answer ≡ Ok value) }
{
    match answer {
        Ok(value) => Ok(value),
        Err(BuildError::NoMemory) => Err(AllocError),
        Err(_) => unreachable!(),
    }
}

/// A class without members. Its name begins its pool.
pub fn new_class(alloc: Global, name: &str) -> Result<ClassBuilder, NoMemory>
    requires { is_own_name name.now ≡ true }
    ensures named { IfOk result (λ b. IsClassAt b.pool b.this_class name.now) }
    ensures fields { IfOk result (λ b. b.fields ≡ []) }
    ensures methods { IfOk result (λ b. b.methods ≡ []) }
    ensures few { IfOk result (λ b. length b.pool ≤ 5) }
    ensures mentions { IfOk result (λ b.
        Mentions b.pool (OfClass name.now ∷ OfClass object_name ∷ [])) }
{
    sure(ClassBuilder::new(alloc, name))
}

/// The slot of a class.
pub fn class_reference(alloc: Global, class: &mut ClassBuilder, name: &str) -> Result<u16, NoMemory>
    requires room { length class.old.pool + 2 ≤ 65534 }
    requires name { can_name_class name.now ≡ true }
    ensures there { IfOk result (λ slot. IsClassAt class.new.pool slot name.now) }
    ensures grown { OnOk result (GrowsPool class.old class.new 2) }
    ensures few { OnOk result (length class.new.pool ≤ length class.old.pool + 2) }
    ensures mentions { OnOk result (Mentions class.new.pool (mentioned class.old.pool
        ++ OfClass name.now ∷ [])) }
{
    sure(class.class_reference(alloc, name))
}

/// The slot of a field of the class in a slot.
pub fn field_reference(
    alloc: Global,
    class: &mut ClassBuilder,
    owner: u16,
    name: &str,
    descriptor: &str,
) -> Result<u16, NoMemory>
    requires room { length class.old.pool + 4 ≤ 65534 }
    requires owner { has_class class.old.pool owner ≡ true }
    requires name { can_name_field name.now descriptor.now ≡ true }
    ensures there { IfOk result (λ slot.
        IsFieldAt class.new.pool slot owner name.now descriptor.now) }
    ensures grown { OnOk result (GrowsPool class.old class.new 4) }
    ensures mentions { OnOk result (MentionsOf class.old.pool class.new.pool owner
        (λ of. field_mention of name.now descriptor.now ∷ [])) }
{
    sure(class.field_reference(alloc, owner, name, descriptor))
}

/// The slot of a method of the class in a slot.
pub fn method_reference(
    alloc: Global,
    class: &mut ClassBuilder,
    owner: u16,
    name: &str,
    descriptor: &str,
) -> Result<u16, NoMemory>
    requires room { length class.old.pool + 4 ≤ 65534 }
    requires owner { has_class class.old.pool owner ≡ true }
    requires name { can_name_method name.now descriptor.now ≡ true }
    ensures there { IfOk result (λ slot.
        IsMethodAt class.new.pool slot owner name.now descriptor.now) }
    ensures grown { OnOk result (GrowsPool class.old class.new 4) }
    ensures mentions { OnOk result (MentionsOf class.old.pool class.new.pool owner
        (λ of. method_mention of name.now descriptor.now ∷ [])) }
{
    sure(class.method_reference(alloc, owner, name, descriptor))
}

/// Puts a field after the others.
pub fn put_field(
    alloc: Global,
    class: &mut ClassBuilder,
    name: &str,
    descriptor: &str,
) -> Result<(), NoMemory>
    requires few { length class.old.fields < 65535 }
    requires room { length class.old.pool + 2 ≤ 65534 }
    requires name { can_name_field name.now descriptor.now ≡ true }
    ensures { OnOk result (AddsField class.old class.new name.now descriptor.now) }
{
    sure(class.add_field(alloc, name, descriptor))
}

/// Puts a method after the others.
pub fn put_method(
    alloc: Global,
    class: &mut ClassBuilder,
    name: &str,
    descriptor: &str,
    locals: u16,
    code: &[Step],
    references: &References,
) -> Result<(), NoMemory>
    requires few { length class.old.methods < 65535 }
    requires room { length class.old.pool + (2 + slots_of code.now) ≤ 65534 }
    requires name { is_own_method name.now descriptor.now ≡ true }
    requires code { is_code references.now class.old.pool code.now ≡ true }
    ensures { OnOk result
        (AddsMethod class.old class.new name.now descriptor.now locals references.now code.now) }
{
    sure(class.put_method(alloc, name, descriptor, locals, code, references))
}

/// The slot of a text, which code may push.
pub fn text(class: &mut ClassBuilder, characters: Vec<u16>) -> Result<u16, NoMemory>
    requires room { length class.old.pool + 1 ≤ 65534 }
    requires short { is_long_text characters.items ≡ false }
    ensures there { IfOk result (λ slot. IsTextAt class.new.pool slot characters.items) }
    ensures grown { OnOk result (GrowsPool class.old class.new 1) }
    ensures mentions { OnOk result (Mentions class.new.pool (mentioned class.old.pool)) }
{
    sure(class.text(characters))
}
