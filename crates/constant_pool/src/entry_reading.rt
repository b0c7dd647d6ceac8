//! Entries from bytes.
ghost use Rattle.std.specs.Prelude.{◌≡◌, List, ℕ};
ghost use Rattle.std.specs.Int.{w32};
ghost use Rattle.class_format.specs.Gives.{Gives};
ghost use Rattle.class_definition.specs.Format.{Format, mapped, signed, number_format};
ghost use Rattle.class_definition.specs.declared.entry.Entry.TheVariants.{Utf8, Integer, ClassName, Text, FieldRef, MethodRef, NameAnd};
ghost use Rattle.class_definition.specs.PoolEntries as format;

use crate::text_reading::read_text;
use class_definition::Entry;
use class_format::{
    ClassFault, Failure, Miss, byte_of, half_of, missed, raw_of, signed_long_of, signed_word_of,
};
use jvm_definition::Sequence;
use std::alloc::Global;

/// What is in a slot after which so many are to come.
pub fn slot_of(
    alloc: Global,
    after_long: bool,
    to_come: u16,
    bytes: &[u8],
) -> Result<(Entry, &[u8]), Failure>
    ensures { Gives (λ x. (x.0, x.1.now)) result ((format.slot after_long to_come).read bytes.now) }
{
    if after_long {
        return Ok((Entry::LongRest, bytes));
    }
    entry_of(alloc, to_come, bytes)
}

#[tactic(auto, unfolding(class_definition::specs::PoolEntries::entry))]
fn entry_of(alloc: Global, to_come: u16, bytes: &[u8]) -> Result<(Entry, &[u8]), Failure>
    ensures { Gives (λ x. (x.0, x.1.now)) result ((format.entry to_come).read bytes.now) }
{
    let (tag, rest) = byte_of(ClassFault::CUT, bytes)?;
    match tag {
        1 => utf8_of(alloc, rest),
        3 => integer_of(rest),
        5 => long_of(to_come, rest),
        7 => class_of(rest),
        8 => string_of(rest),
        9 => field_of(rest),
        10 => method_of(rest),
        12 => name_of(rest),
        _ => Err(missed(ClassFault::TAG, bytes)),
    }
}

fn utf8_of(alloc: Global, bytes: &[u8]) -> Result<(Entry, &[u8]), Failure>
    ensures { Gives (λ x. (x.0, x.1.now)) result
        ((mapped Utf8 format.utf8_of format.text).read bytes.now) }
{
    let (length, rest) = half_of(ClassFault::CUT, bytes)?;
    let (text, rest) = raw_of(ClassFault::CUT, rest, length as usize)?;
    match read_text(alloc, text)? {
        None => Err(Failure::Missed(Miss {
            kind: ClassFault::UTF8,
            left: bytes.len() + 1,
        })),
        Some(text) => Ok((Entry::Utf8(text), rest)),
    }
}

fn integer_of(bytes: &[u8]) -> Result<(Entry, &[u8]), Failure>
    ensures { Gives (λ x. (x.0, x.1.now)) result
        ((mapped Integer format.integer_of (signed 3 w32)).read bytes.now) }
{
    let (number, rest) = signed_word_of(ClassFault::CUT, bytes)?;
    Ok((Entry::Integer(number), rest))
}

fn long_of(to_come: u16, bytes: &[u8]) -> Result<(Entry, &[u8]), Failure>
    ensures { Gives (λ x. (x.0, x.1.now)) result ((format.long to_come).read bytes.now) }
{
    if to_come == 0 {
        return Err(Failure::Missed(Miss {
            kind: ClassFault::INDEX,
            left: bytes.len() + 1,
        }));
    }
    let (number, rest) = signed_long_of(ClassFault::CUT, bytes)?;
    Ok((Entry::Long(number), rest))
}

fn class_of(bytes: &[u8]) -> Result<(Entry, &[u8]), Failure>
    ensures { Gives (λ x. (x.0, x.1.now)) result
        ((mapped ClassName format.class_entry_name format.slot_index).read bytes.now) }
{
    let (name, rest) = half_of(ClassFault::CUT, bytes)?;
    Ok((Entry::ClassName(name), rest))
}

fn string_of(bytes: &[u8]) -> Result<(Entry, &[u8]), Failure>
    ensures { Gives (λ x. (x.0, x.1.now)) result
        ((mapped Text format.string_of format.slot_index).read bytes.now) }
{
    let (text, rest) = half_of(ClassFault::CUT, bytes)?;
    Ok((Entry::Text(text), rest))
}

fn field_of(bytes: &[u8]) -> Result<(Entry, &[u8]), Failure>
    ensures { Gives (λ x. (x.0, x.1.now)) result
        ((mapped (λ x. FieldRef x.0 x.1) format.field_entry format.two_slots).read bytes.now) }
{
    let (class, rest) = half_of(ClassFault::CUT, bytes)?;
    let (name, rest) = half_of(ClassFault::CUT, rest)?;
    Ok((Entry::FieldRef(class, name), rest))
}

fn method_of(bytes: &[u8]) -> Result<(Entry, &[u8]), Failure>
    ensures { Gives (λ x. (x.0, x.1.now)) result
        ((mapped (λ x. MethodRef x.0 x.1) format.method_entry format.two_slots).read bytes.now) }
{
    let (class, rest) = half_of(ClassFault::CUT, bytes)?;
    let (name, rest) = half_of(ClassFault::CUT, rest)?;
    Ok((Entry::MethodRef(class, name), rest))
}

fn name_of(bytes: &[u8]) -> Result<(Entry, &[u8]), Failure>
    ensures { Gives (λ x. (x.0, x.1.now)) result
        ((mapped (λ x. NameAnd x.0 x.1) format.name_entry format.two_slots).read bytes.now) }
{
    let (name, rest) = half_of(ClassFault::CUT, bytes)?;
    let (descriptor, rest) = half_of(ClassFault::CUT, rest)?;
    Ok((Entry::NameAnd(name, descriptor), rest))
}
