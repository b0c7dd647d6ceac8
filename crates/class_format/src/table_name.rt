//! The name of the attribute with a table of frames (JVM Specification, Java SE 7 edition, 4.7.4).
ghost use Rattle.std.specs.Prelude.{◌≡◌};
ghost use Rattle.class_definition.specs.Tables as format;

use class_definition::Entry;

/// `StackMapTable`.
pub const STACK_MAP_TABLE: [u16; 13] = [83, 116, 97, 99, 107, 77, 97, 112, 84, 97, 98, 108, 101];

/// The first slot of a pool that has the attribute's name; the first slot is slot 1.
pub fn table_slot_of(entries: &[Entry]) -> Option<usize>
    ensures { result ≡ format.table_slot entries.now }
{
    let mut slot = 1;
    let mut rest = entries;
    while let Some((entry, others)) = rest.split_first() {
        if is_table_name(entry) {
            return Some(slot);
        }
        slot += 1;
        rest = others;
    }
    None
}

fn is_table_name(entry: &Entry) -> bool
    ensures { result ≡ format.is_table_name entry.now }
{
    match entry {
        Entry::Utf8(text) => text.as_slice() == STACK_MAP_TABLE.as_slice(),
        _ => false,
    }
}
