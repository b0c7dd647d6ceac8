//! What the entries name.
ghost use Rattle.std.specs.Prelude.{◌≡◌, ◌||◌, true, option_map};
ghost use Rattle.std.specs.Option.{option_and_then};
ghost use Rattle.class_definition.specs.NameGrammar as profile;
ghost use Rattle.class_definition.specs.PoolEntries.{class_entry_name, name_entry};
ghost use Rattle.class_definition.specs.PoolChecks as checks;
ghost use Rattle.constant_pool.specs.Forms.{least_kind};

use crate::form::{fault_unless, utf8_unless};
use crate::slots::Slots;
use class_definition::Entry;
use class_format::ClassFault;

/// The kind of what is wrong with what an entry names.
#[tactic(auto, unfolding(class_definition::specs::PoolChecks::pool_entry_fault))]
pub fn entry_fault(pool: &Slots, entry: &Entry) -> Option<u32>
    ensures { result ≡ checks.pool_entry_fault pool.now entry.now }
{
    match entry {
        Entry::Utf8(_) | Entry::Integer(_) | Entry::Long(_) | Entry::LongRest => None,
        Entry::ClassName(name) => pool.class_name_fault(*name),
        Entry::Text(text) => text_fault(pool.text(*text)),
        Entry::FieldRef(class, name) => field_fault(pool, *class, *name),
        Entry::MethodRef(class, name) => method_fault(pool, *class, *name),
        Entry::NameAnd(name, descriptor) => pair_fault(pool, *name, *descriptor),
    }
}

fn text_fault(text: Option<&[u16]>) -> Option<u32>
    ensures { result ≡ checks.text_fault (λ _. true) (option_map (λ x. x.now) text.entry) }
{
    match text {
        None => Some(ClassFault::INDEX),
        Some(_) => None,
    }
}

// A slot that is missing comes before a text of a wrong form.
#[tactic(auto, using(crate::proofs::FormLemmas::pair_fault_is))]
fn pair_fault(pool: &Slots, name: u16, descriptor: u16) -> Option<u32>
    ensures { result ≡ checks.pair_fault (checks.text_at pool.now name)
        (checks.text_at pool.now descriptor) }
{
    least_kind(
        pool.member_name_fault(name),
        descriptor_fault(pool, descriptor),
    )
}

#[tactic(auto, using(crate::proofs::FormLemmas::fault_is))]
fn descriptor_fault(pool: &Slots, slot: u16) -> Option<u32>
    ensures { result ≡ checks.text_fault (λ cs. profile.is_field_descriptor cs
        || profile.is_method_descriptor cs) (checks.text_at pool.now slot) }
{
    let form = pool.form(slot);
    fault_unless(form.map(|form| form.field_descriptor || form.method_descriptor))
}

fn least_kind(name: Option<u32>, descriptor: Option<u32>) -> Option<u32>
    ensures { result ≡ least_kind name descriptor }
{
    match (name, descriptor) {
        (None, kind) => kind,
        (Some(kind), None) => Some(kind),
        (Some(first), Some(second)) => Some(first.min(second)),
    }
}

fn field_fault(pool: &Slots, class: u16, name: u16) -> Option<u32>
    ensures { result ≡ checks.ref_fault pool.now profile.is_field_descriptor
        (option_and_then class_entry_name (checks.entry_at pool.now class))
        (option_and_then name_entry (checks.entry_at pool.now name)) }
{
    match (class_slot(pool, class), descriptor_slot(pool, name)) {
        (Some(_), Some(descriptor)) => match pool.form(descriptor) {
            None => None,
            Some(form) => utf8_unless(form.field_descriptor),
        },
        _ => Some(ClassFault::INDEX),
    }
}

fn method_fault(pool: &Slots, class: u16, name: u16) -> Option<u32>
    ensures { result ≡ checks.ref_fault pool.now profile.is_method_descriptor
        (option_and_then class_entry_name (checks.entry_at pool.now class))
        (option_and_then name_entry (checks.entry_at pool.now name)) }
{
    match (class_slot(pool, class), descriptor_slot(pool, name)) {
        (Some(_), Some(descriptor)) => match pool.form(descriptor) {
            None => None,
            Some(form) => utf8_unless(form.method_descriptor),
        },
        _ => Some(ClassFault::INDEX),
    }
}

// The slot of the name of the class in a slot.
fn class_slot(pool: &Slots, slot: u16) -> Option<u16>
    ensures { result ≡ option_and_then class_entry_name (checks.entry_at pool.now slot) }
{
    match pool.entry(slot)? {
        Entry::ClassName(name) => Some(*name),
        _ => None,
    }
}

// The slot of the descriptor of the name and descriptor in a slot.
fn descriptor_slot(pool: &Slots, slot: u16) -> Option<u16>
    ensures { result
        ≡ option_map (λ x. x.1) (option_and_then name_entry (checks.entry_at pool.now slot)) }
{
    match pool.entry(slot)? {
        Entry::NameAnd(_, descriptor) => Some(*descriptor),
        _ => None,
    }
}
