//! Entries of a pool as bytes (JVM Specification, 4.4).
ghost use Rattle.std.specs.Prelude.{◌≡◌, ◌≤◌, ◌∷◌, ◌++◌, false, flat_map, length, OnOk};
ghost use Rattle.std.specs.List.{list_any};
ghost use Rattle.std.specs.Int.{w16, w32, w64, to_be_bytes, cast_unsigned};
ghost use Rattle.class_definition.specs.Utf8.{text_bytes};
ghost use Rattle.class_writer.specs.Limits.{has_long_text};
ghost use Rattle.class_writer.specs.Written.{entry_bytes, halves};

use crate::error::NoMemory;
use crate::numbers::append_halves;
use constant_pool::{Entry, append_text, text_size};

/// Appends entries of a pool.
pub fn append_entries(bytes: &mut Vec<u8>, entries: &[Entry]) -> Result<(), NoMemory>
    requires { list_any has_long_text entries.now ≡ false }
    ensures { OnOk result (bytes.new.items ≡ bytes.old.items ++ flat_map entry_bytes entries.now) }
{
    let mut rest = entries;
    while let Some((entry, others)) = rest.split_first() {
        append_entry(bytes, entry)?;
        rest = others;
    }
    Ok(())
}

fn append_entry(bytes: &mut Vec<u8>, entry: &Entry) -> Result<(), NoMemory>
    requires { has_long_text entry.now ≡ false }
    ensures { OnOk result (bytes.new.items ≡ bytes.old.items ++ entry_bytes entry.now) }
{
    match entry {
        Entry::Utf8(text) => append_utf8(bytes, text.as_slice()),
        Entry::Integer(number) => append_integer(bytes, *number),
        Entry::Long(number) => append_long(bytes, *number),
        Entry::LongRest => Ok(()),
        Entry::ClassName(name) => append_tagged(bytes, 7, &[*name]),
        Entry::Text(text) => append_tagged(bytes, 8, &[*text]),
        Entry::FieldRef(class, name) => append_tagged(bytes, 9, &[*class, *name]),
        Entry::MethodRef(class, name) => append_tagged(bytes, 10, &[*class, *name]),
        Entry::NameAnd(name, descriptor) => append_tagged(bytes, 12, &[*name, *descriptor]),
    }
}

fn append_utf8(bytes: &mut Vec<u8>, text: &[u16]) -> Result<(), NoMemory>
    requires { length (text_bytes text.now) ≤ 65535 }
    ensures { OnOk result (bytes.new.items ≡ bytes.old.items
        ++ ((1 ∷ to_be_bytes w16 (length (text_bytes text.now))) ++ text_bytes text.now)) }
{
    append_tagged(bytes, 1, &[text_size(text) as u16])?;
    append_text(bytes, text)
}

fn append_integer(bytes: &mut Vec<u8>, number: i32) -> Result<(), NoMemory>
    ensures { OnOk result (bytes.new.items ≡ bytes.old.items
        ++ (3 ∷ to_be_bytes w32 (cast_unsigned w32 number))) }
{
    bytes.push(3)?;
    bytes.extend_from_slice(&number.cast_unsigned().to_be_bytes())
}

fn append_long(bytes: &mut Vec<u8>, number: i64) -> Result<(), NoMemory>
    ensures { OnOk result (bytes.new.items ≡ bytes.old.items
        ++ (5 ∷ to_be_bytes w64 (cast_unsigned w64 number))) }
{
    bytes.push(5)?;
    bytes.extend_from_slice(&number.cast_unsigned().to_be_bytes())
}

fn append_tagged(bytes: &mut Vec<u8>, tag: u8, numbers: &[u16]) -> Result<(), NoMemory>
    ensures { OnOk result (bytes.new.items ≡ bytes.old.items ++ (tag ∷ halves numbers.now)) }
{
    bytes.push(tag)?;
    append_halves(bytes, numbers)
}
