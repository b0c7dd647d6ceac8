ghost use Rattle.std.specs.Prelude.{◌≡◌, IfOk, if◌then◌else◌, map, None, Some, option_map};
ghost use Rattle.constant_pool.specs.Forms.{form_of, form_of_text, form_at, fault_unless};

use crate::error::NoMemory;
use crate::names::{
    is_array_name, is_class_name, is_field_descriptor, is_member_name, is_method_descriptor,
    is_own_descriptor,
};
use class_definition::Entry;
use class_format::ClassFault;
use std::alloc::Global;

/// What a text can be.
#[derive(Clone, Copy)]
pub struct Form {
    /// The name of a class or of a type of arrays.
    pub class_name: bool,
    /// The name of a field or method.
    pub member_name: bool,
    /// The descriptor of a field.
    pub field_descriptor: bool,
    /// The descriptor of a method that a class names.
    pub method_descriptor: bool,
    /// The descriptor of a method of the class itself.
    pub own_descriptor: bool,
}

/// What the text of each entry can be; None for an entry that is no text.
pub fn forms_of(alloc: Global, entries: &[Entry]) -> Result<Vec<Option<Form>>, NoMemory>
    ensures { IfOk result (λ forms. forms.items ≡ map form_of entries.now) }
{
    let mut forms = Vec::new(alloc);
    for entry in entries {
        forms.push(form_of(entry))?;
    }
    Ok(forms)
}

fn form_of(entry: &Entry) -> Option<Form>
    ensures { result ≡ form_of entry.now }
{
    match entry {
        Entry::Utf8(text) => Some(form_of_text(text.as_slice())),
        _ => None,
    }
}

fn form_of_text(text: &[u16]) -> Form
    ensures { result ≡ form_of_text text.now }
{
    Form {
        class_name: is_class_name(text) || is_array_name(text),
        member_name: is_member_name(text),
        field_descriptor: is_field_descriptor(text),
        method_descriptor: is_method_descriptor(text),
        own_descriptor: is_own_descriptor(text),
    }
}

/// What the text in a slot can be; slots are counted from 1.
pub fn form_at(forms: &[Option<Form>], slot: u16) -> Option<Form>
    ensures { result ≡ form_at forms.now slot }
{
    if slot == 0 {
        return None;
    }
    match forms.get(slot as usize - 1) {
        Some(form) => *form,
        None => None,
    }
}

/// The kind of what is wrong with a text, given whether it passes; None where no text is there.
pub fn fault_unless(passes: Option<bool>) -> Option<u32>
    ensures { result ≡ fault_unless passes }
{
    match passes {
        None => Some(ClassFault::INDEX),
        Some(passes) => utf8_unless(passes),
    }
}

/// The kind of a name or descriptor that does not pass.
pub fn utf8_unless(passes: bool) -> Option<u32>
    ensures { result ≡ (if passes then None else Some 6) }
{
    if passes { None } else { Some(ClassFault::UTF8) }
}
