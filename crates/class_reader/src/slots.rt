//! Slots at the front of bytes, with what they name.
ghost use Rattle.std.specs.Prelude.{◌≡◌, length};
ghost use Rattle.class_format.specs.Gives.{Gives};
ghost use Rattle.class_definition.specs.Format.{settled};
ghost use Rattle.class_definition.specs.NameGrammar as profile;
ghost use Rattle.class_definition.specs.Named as format;

use crate::faults::{code_name_fault, is_object, this_fault};
use class_format::{ClassFault, Failure, half_of, missed};
use constant_pool::Slots;

/// The slot of the name of a field or method.
pub fn name_of<'a>(pool: &Slots, bytes: &'a [u8]) -> Result<(u16, &'a [u8]), Failure>
    ensures { Gives (λ x. (x.0, x.1.now)) result
        ((format.text_slot pool.now profile.is_member_name).read bytes.now) }
{
    let (slot, rest) = half_of(ClassFault::CUT, bytes)?;
    settled_slot(slot, rest, bytes, pool.member_name_fault(slot))
}

/// The slot of a field's descriptor.
pub fn field_descriptor_of<'a>(pool: &Slots, bytes: &'a [u8]) -> Result<(u16, &'a [u8]), Failure>
    ensures { Gives (λ x. (x.0, x.1.now)) result
        ((format.text_slot pool.now profile.is_field_descriptor).read bytes.now) }
{
    let (slot, rest) = half_of(ClassFault::CUT, bytes)?;
    settled_slot(slot, rest, bytes, pool.field_descriptor_fault(slot))
}

/// The slot of a method's descriptor.
pub fn own_descriptor_of<'a>(pool: &Slots, bytes: &'a [u8]) -> Result<(u16, &'a [u8]), Failure>
    ensures { Gives (λ x. (x.0, x.1.now)) result
        ((format.text_slot pool.now format.is_own_descriptor).read bytes.now) }
{
    let (slot, rest) = half_of(ClassFault::CUT, bytes)?;
    settled_slot(slot, rest, bytes, pool.own_descriptor_fault(slot))
}

/// The slot of the name of the attribute with a method's code.
pub fn code_name_of<'a>(pool: &Slots, bytes: &'a [u8]) -> Result<(u16, &'a [u8]), Failure>
    ensures { Gives (λ x. (x.0, x.1.now)) result ((format.code_name_slot pool.now).read bytes.now) }
{
    let (slot, rest) = half_of(ClassFault::CUT, bytes)?;
    settled_slot(slot, rest, bytes, code_name_fault(pool.text(slot)))
}

/// The slot of the class itself.
pub fn this_of<'a>(pool: &Slots, bytes: &'a [u8]) -> Result<(u16, &'a [u8]), Failure>
    ensures { Gives (λ x. (x.0, x.1.now)) result ((format.this_slot pool.now).read bytes.now) }
{
    let (slot, rest) = half_of(ClassFault::CUT, bytes)?;
    settled_slot(slot, rest, bytes, this_fault(pool.class_name(slot)))
}

/// The slot of the class above it.
pub fn super_of<'a>(pool: &Slots, bytes: &'a [u8]) -> Result<(u16, &'a [u8]), Failure>
    ensures { Gives (λ x. (x.0, x.1.now)) result ((format.super_slot pool.now).read bytes.now) }
{
    let (slot, rest) = half_of(ClassFault::CUT, bytes)?;
    if !is_object(pool.class_name(slot)) {
        return Err(missed(ClassFault::INDEX, bytes));
    }
    Ok((slot, rest))
}

// A slot that was read of some bytes, if there is nothing wrong with it.
fn settled_slot<'a>(
    slot: u16,
    rest: &'a [u8],
    bytes: &[u8],
    fault: Option<u32>,
) -> Result<(u16, &'a [u8]), Failure>
    ensures { Gives (λ x. (x.0, x.1.now)) result
        (settled (length bytes.now) (format.fault_here fault) (slot, rest.now)) }
{
    match fault {
        None => Ok((slot, rest)),
        Some(kind) => Err(missed(kind, bytes)),
    }
}
