//! What is in the slots of a pool.
ghost use Rattle.std.specs.Prelude.{◌≡◌, option_copied, option_map};
ghost use Rattle.class_definition.specs.PoolChecks.{entry_at, text_at, class_text_at};

use class_definition::Entry;

/// The entry in a slot, counted from 1.
pub fn entry_of(pool: &[Entry], slot: u16) -> Option<&Entry>
    ensures { option_map (λ x. x.now) result ≡ entry_at pool.now slot }
{
    if slot == 0 {
        return None;
    }
    pool.get(slot as usize - 1)
}

/// The text of the Utf8 entry in a slot, counted from 1; None exactly if no such entry is there.
pub fn text_of(pool: &[Entry], slot: u16) -> Option<&[u16]>
    ensures { option_map (λ x. x.now) result ≡ text_at pool.now slot }
{
    match entry_of(pool, slot)? {
        Entry::Utf8(text) => Some(text.as_slice()),
        _ => None,
    }
}

/// The name of the class in a slot, counted from 1; None exactly if no such entry is there, or it names no Utf8 entry.
pub fn class_name_of(pool: &[Entry], slot: u16) -> Option<&[u16]>
    ensures { option_map (λ x. x.now) result ≡ class_text_at pool.now slot }
{
    match entry_of(pool, slot)? {
        Entry::ClassName(name) => text_of(pool, *name),
        _ => None,
    }
}
