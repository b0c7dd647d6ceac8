//! What is in the pool of a class (JVM Specification, 4.4).
ghost use Rattle.std.specs.Prelude.{◌≡◌, ℕ};
ghost use Rattle.class_definition.specs.MemberNames as names;

use constant_pool::{Entry, class_name_of, entry_of};
use jvm_code::Class;

/// The text in a slot, and the empty one where there is none.
pub fn text_of(class: &Class, slot: u16) -> &[u16]
    ensures { result.now ≡ names.slot_text class.now slot }
{
    match constant_pool::text_of(class.pool.as_slice(), slot) {
        Some(text) => text,
        None => &[],
    }
}

/// The name of the class in a slot, and the empty text where there is none.
pub fn class_name_at(class: &Class, slot: u16) -> &[u16]
    ensures { result.now ≡ names.class_name_at class.now slot }
{
    match class_name_of(class.pool.as_slice(), slot) {
        Some(name) => name,
        None => &[],
    }
}

/// The name and descriptor in a slot, and empty texts where there are none.
pub fn signature_at(class: &Class, slot: u16) -> (&[u16], &[u16])
    ensures { names.signature result.0.now result.1.now ≡ names.signature_at class.now slot }
{
    match entry_of(class.pool.as_slice(), slot) {
        Some(Entry::NameAnd(name, descriptor)) => {
            (text_of(class, *name), text_of(class, *descriptor))
        }
        _ => (&[], &[]),
    }
}
