//! The first slots with a text, and with a class.
ghost use Rattle.std.specs.Prelude.{◌≡◌, ◌≤◌, length, unwrap_or, codes, option_map};
ghost use Rattle.stackmap_pool.specs.Longer as longer;

use constant_pool::{Entry, text_of};
use stackmap_table::{INTS, PAGES, ReferenceSlots, STRING};

/// The first slot with a text; the first slot is slot 1.
pub fn text_slot(pool: &[Entry], text: &[u16]) -> Option<usize>
    ensures { result ≡ longer.first_text_slot text.now pool.now }
{
    let mut slot = 1;
    let mut rest = pool;
    while let Some((entry, others)) = rest.split_first() {
        if is_text(entry, text) {
            return Some(slot);
        }
        slot += 1;
        rest = others;
    }
    None
}

fn is_text(entry: &Entry, text: &[u16]) -> bool
    ensures { result ≡ longer.is_text_entry text.now entry.now }
{
    match entry {
        Entry::Utf8(characters) => characters.as_slice() == text,
        _ => false,
    }
}

/// The first slot with a class of a name.
pub fn class_slot(pool: &[Entry], name: &[u16]) -> Option<usize>
    ensures { result ≡ longer.class_slot name.now pool.now }
{
    let mut slot = 1;
    let mut rest = pool;
    while let Some((entry, others)) = rest.split_first() {
        if is_class(pool, entry, name) {
            return Some(slot);
        }
        slot += 1;
        rest = others;
    }
    None
}

fn is_class(pool: &[Entry], entry: &Entry, name: &[u16]) -> bool
    ensures { result ≡ longer.is_class_of_name pool.now name.now entry.now }
{
    match entry {
        Entry::ClassName(slot) => is_same(text_of(pool, *slot), name),
        _ => false,
    }
}

fn is_same(text: Option<&[u16]>, name: &[u16]) -> bool
    ensures { result ≡ longer.is_same name.now (option_map (λ x. x.now) text.entry) }
{
    match text {
        Some(text) => text == name,
        None => false,
    }
}

/// The slots in which a pool names the types of references.
pub fn reference_slots(pool: &[Entry]) -> ReferenceSlots
    requires { length pool.now ≤ 65534 }
    ensures ints { result.ints ≡ unwrap_or (longer.class_slot (codes "[I") pool.now) 0 }
    ensures pages { result.pages ≡ unwrap_or (longer.class_slot (codes "[[I") pool.now) 0 }
    ensures text { result.text
        ≡ unwrap_or (longer.class_slot (codes "java/lang/String") pool.now) 0 }
{
    ReferenceSlots {
        ints: slot_or_none(pool, &INTS),
        pages: slot_or_none(pool, &PAGES),
        text: slot_or_none(pool, &STRING),
    }
}

// The first slot with a class, or 0.
fn slot_or_none(pool: &[Entry], name: &[u16]) -> u16
    requires { length pool.now ≤ 65534 }
    ensures { result ≡ unwrap_or (longer.class_slot name.now pool.now) 0 }
{
    match class_slot(pool, name) {
        Some(slot) => slot as u16,
        None => 0,
    }
}
