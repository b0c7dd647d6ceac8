//! The attribute with a method's code and its table of frames, from bytes (JVM Specification, Java SE 7 edition, 4.7.3, 4.7.4).
ghost use Rattle.std.specs.Prelude.{◌≡◌, ◌-◌, ◌||◌, ◌==◌, nat_le};
ghost use Rattle.class_format.specs.Gives.{Gives};
ghost use Rattle.class_definition.specs.Tables as format;

use crate::code_reading::{CodeHead, code_numbers_of, code_of, no_attributes};
use crate::member_reading::one_attribute;
use class_format::{ClassFault, Failure, exact_word_of, half_of, missed, raw_of};
use constant_pool::Slots;
use std::alloc::Global;

/// The attribute: what it begins with, the code, and the table, which has no bytes where there is none. `name` is the slot of
/// the table's name.
#[tactic(auto, unfolding(class_definition::specs::Tables::framed_code_attribute))]
pub fn framed_attribute_of<'a>(
    alloc: Global,
    pool: &Slots,
    name: Option<usize>,
    bytes: &'a [u8],
) -> Result<((CodeHead, (&'a [u8], &'a [u8])), &'a [u8]), Failure>
    requires { name ≡ format.table_slot pool.now }
    ensures { Gives
        (λ x. (
          (
            (x.0.0.length, (x.0.0.stack, (x.0.0.locals, x.0.0.code_length))),
            (x.0.1.0.now, x.0.1.1.now),
          ),
          x.1.now,
        )) result ((format.framed_code_attribute pool.now).read bytes.now) }
{
    let (head, rest) = framed_head_of(bytes)?;
    let (code, rest) = code_of(alloc, head.code_length as usize, rest)?;
    let rest = no_attributes(rest)?;
    let more = head.length.saturating_sub(head.code_length + 12);
    let (table, rest) = table_of(pool, name, more, rest)?;
    Ok(((head, (code, table)), rest))
}

fn framed_head_of(bytes: &[u8]) -> Result<(CodeHead, &[u8]), Failure>
    ensures { Gives (λ x. ((x.0.length, (x.0.stack, (x.0.locals, x.0.code_length))), x.1.now))
        result (format.framed_code_head.read bytes.now) }
{
    let (head, rest) = code_numbers_of(bytes)?;
    if !is_lawful_length(head.length, head.code_length) {
        return Err(missed(ClassFault::ATTRIBUTE, bytes));
    }
    Ok((head, rest))
}

// Whether the attribute can be so long, with so many bytes of code.
fn is_lawful_length(length: u32, code: u32) -> bool
    ensures { result ≡ format.is_lawful_length length code }
{
    let length = u64::from(length);
    let code = u64::from(code);
    length == code + 12 || code + 19 <= length
}

// The table of an attribute that is longer by so many bytes than one without a table.
fn table_of<'a>(
    pool: &Slots,
    name: Option<usize>,
    more: u32,
    bytes: &'a [u8],
) -> Result<(&'a [u8], &'a [u8]), Failure>
    requires { name ≡ format.table_slot pool.now }
    ensures { Gives (λ x. (x.0.now, x.1.now)) result
        ((format.table_attribute pool.now more).read bytes.now) }
{
    if more == 0 {
        let rest = no_attributes(bytes)?;
        return Ok((&[], rest));
    }
    some_table_of(pool, name, more.saturating_sub(6), bytes)
}

fn some_table_of<'a>(
    pool: &Slots,
    name: Option<usize>,
    length: u32,
    bytes: &'a [u8],
) -> Result<(&'a [u8], &'a [u8]), Failure>
    requires { name ≡ format.table_slot pool.now }
    ensures { Gives (λ x. (x.0.now, x.1.now)) result
        ((format.some_table pool.now length).read bytes.now) }
{
    let rest = one_attribute(bytes)?;
    let rest = behind_table_name(pool, name, rest)?;
    let rest = exact_word_of(ClassFault::CUT, ClassFault::ATTRIBUTE, length, rest)?;
    raw_of(ClassFault::CUT, rest, length as usize)
}

fn behind_table_name<'a>(
    pool: &Slots,
    name: Option<usize>,
    bytes: &'a [u8],
) -> Result<&'a [u8], Failure>
    requires { name ≡ format.table_slot pool.now }
    ensures { Gives (λ x. (tt, x.now)) result ((format.table_name pool.now).read bytes.now) }
{
    let (slot, rest) = half_of(ClassFault::CUT, bytes)?;
    match table_name_fault(pool, name, slot) {
        None => Ok(rest),
        Some(kind) => Err(missed(kind, bytes)),
    }
}

// The kind of what is wrong with a slot of the attribute's name.
fn table_name_fault(pool: &Slots, name: Option<usize>, slot: u16) -> Option<u32>
    requires { name ≡ format.table_slot pool.now }
    ensures { result ≡ format.table_name_fault pool.now slot }
{
    if is_slot(name, slot) {
        return None;
    }
    match pool.text(slot) {
        None => Some(ClassFault::INDEX),
        Some(_) => Some(ClassFault::ATTRIBUTE),
    }
}

fn is_slot(name: Option<usize>, slot: u16) -> bool
    ensures { result ≡ format.is_slot name slot }
{
    match name {
        None => false,
        Some(name) => name == usize::from(slot),
    }
}
