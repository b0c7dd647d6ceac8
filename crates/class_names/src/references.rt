//! References to what is not there.
ghost use Rattle.std.specs.Prelude.{◌≡◌, ◌≤◌, if◌then◌else◌, length};
ghost use Rattle.class_definition.specs.MemberNames as words;
ghost use Rattle.class_definition.specs.LinkFault as faults;
ghost use Rattle.class_names.specs.Keys.{IsNumbered, classes_in};

use crate::known::{is_known, known_method_fault};
use crate::lookups::{class_name_at, signature_at, text_of};
use crate::names::Names;
use crate::numbered_class::NumberedClass;
use class_definition::LinkFault;
use constant_pool::{Entry, is_array_name};

/// The first slot that names what is not there, of all classes.
pub fn references_fault(names: &Names) -> Option<LinkFault>
    requires { length names.now.numbered.classes.items ≤ 1024 }
    ensures { result ≡ faults.references_fault (classes_in names.now.numbered.classes.items) 0
        (classes_in names.now.numbered.classes.items) }
{
    for (number, class) in names.numbered.classes.iter().enumerate() {
        if let Some(fault) = slots_fault(names, number as u32, class) {
            return Some(fault);
        }
    }
    None
}

// The first slot of a class with a number.
fn slots_fault(names: &Names, number: u32, class: &NumberedClass) -> Option<LinkFault>
    requires { IsNumbered names.now.numbered.texts.keys class.now }
    ensures { result ≡ faults.slots_fault (classes_in names.now.numbered.classes.items)
        class.now.class.now number 1 class.now.class.now.pool }
{
    let pool = class.class.pool.as_slice();
    for (i, entry) in pool.iter().enumerate() {
        if let Some(kind) = entry_fault(names, class, entry) {
            return Some(LinkFault {
                kind,
                class: number,
                slot: i as u32 + 1,
            });
        }
    }
    None
}

fn entry_fault(names: &Names, class: &NumberedClass, entry: &Entry) -> Option<u32>
    requires { IsNumbered names.now.numbered.texts.keys class.now }
    ensures { result ≡ faults.named_entry_fault (classes_in names.now.numbered.classes.items)
        class.now.class.now entry.now }
{
    match entry {
        Entry::ClassName(name) => class_fault(names, class, *name),
        Entry::FieldRef(owner, name) => field_fault(names, class, *owner, *name),
        Entry::MethodRef(owner, name) => method_fault(names, class, *owner, *name),
        _ => None,
    }
}

fn class_fault(names: &Names, class: &NumberedClass, name: u16) -> Option<u32>
    requires { IsNumbered names.now.numbered.texts.keys class.now }
    ensures { result
        ≡ (if faults.is_known_class (classes_in names.now.numbered.classes.items)
        (words.slot_text class.now.class.now name) then None else Some faults.no_class) }
{
    let text = text_of(class.class, name);
    if is_array_name(text) || is_known(text) || names.class_names.contains(&class.number(name)) {
        None
    } else {
        Some(LinkFault::NO_CLASS)
    }
}

fn field_fault(names: &Names, class: &NumberedClass, owner: u16, name: u16) -> Option<u32>
    requires { IsNumbered names.now.numbered.texts.keys class.now }
    ensures { result ≡ faults.member_fault faults.no_field
        (words.fields_named (classes_in names.now.numbered.classes.items)
        (words.class_name_at class.now.class.now owner))
        (words.signature_at class.now.class.now name) }
{
    names
        .fields
        .fault(LinkFault::NO_FIELD, &class.key(owner, name))
}

fn method_fault(names: &Names, class: &NumberedClass, owner: u16, name: u16) -> Option<u32>
    requires { IsNumbered names.now.numbered.texts.keys class.now }
    ensures { result ≡ faults.member_fault faults.no_method
        (words.methods_named (classes_in names.now.numbered.classes.items)
        (words.class_name_at class.now.class.now owner))
        (words.signature_at class.now.class.now name) }
{
    if names.class_names.contains(&class.class_number(owner)) {
        names
            .methods
            .fault(LinkFault::NO_METHOD, &class.key(owner, name))
    } else {
        let (method, descriptor) = signature_at(class.class, name);
        known_method_fault(class_name_at(class.class, owner), method, descriptor)
    }
}
