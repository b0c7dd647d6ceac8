//! Fields and methods from bytes (JVM Specification, 4.5 and 4.6).
ghost use Rattle.std.specs.Prelude.{◌≡◌};
ghost use Rattle.std.specs.Int.{w16};
ghost use Rattle.class_format.specs.Gives.{Gives};
ghost use Rattle.class_definition.specs.Format.{counted, repeated};
ghost use Rattle.class_definition.specs.Members as format;

use crate::code_reading::{code_attribute_of, no_attributes};
use crate::slots::{code_name_of, field_descriptor_of, name_of, own_descriptor_of};
use class_format::{ClassFault, Failure, exact_half_of, half_of};
use constant_pool::Slots;
use jvm_code::{Member, Method};
use jvm_definition::Sequence;
use std::alloc::Global;

/// Public and static.
const FLAGS: u16 = 9;

/// The fields, after their number.
pub fn fields_of<'a>(
    alloc: Global,
    pool: &Slots,
    bytes: &'a [u8],
) -> Result<(Vec<Member>, &'a [u8]), Failure>
    ensures { Gives (λ x. (x.0.items, x.1.now)) result
        ((counted 3 w16 (format.field pool.now)).read bytes.now) }
{
    let (count, rest) = half_of(ClassFault::CUT, bytes)?;
    so_many_fields(alloc, pool, count, rest)
}

fn so_many_fields<'a>(
    alloc: Global,
    pool: &Slots,
    count: u16,
    bytes: &'a [u8],
) -> Result<(Vec<Member>, &'a [u8]), Failure>
    ensures { Gives (λ x. (x.0.items, x.1.now)) result
        ((repeated (format.field pool.now) count).read bytes.now) }
{
    let mut fields = Vec::new(alloc);
    let mut rest = bytes;
    let mut to_come = count;
    while to_come > 0 {
        to_come -= 1;
        let (field, others) = field_of(pool, rest)?;
        fields.push(field)?;
        rest = others;
    }
    Ok((fields, rest))
}

#[tactic(auto, unfolding(class_definition::specs::Members::field))]
fn field_of<'a>(pool: &Slots, bytes: &'a [u8]) -> Result<(Member, &'a [u8]), Failure>
    ensures { Gives (λ x. (x.0, x.1.now)) result ((format.field pool.now).read bytes.now) }
{
    let rest = flags_of(bytes)?;
    let (name, rest) = name_of(pool, rest)?;
    let (desc, rest) = field_descriptor_of(pool, rest)?;
    let rest = no_attributes(rest)?;
    Ok((Member { name, desc }, rest))
}

/// What follows the flags, public and static.
pub fn flags_of(bytes: &[u8]) -> Result<&[u8], Failure>
    ensures { Gives (λ x. (tt, x.now)) result (format.public_static.read bytes.now) }
{
    exact_half_of(ClassFault::CUT, ClassFault::FLAGS, FLAGS, bytes)
}

/// The methods, after their number.
pub fn methods_of<'a>(
    alloc: Global,
    pool: &Slots,
    bytes: &'a [u8],
) -> Result<(Vec<Method>, &'a [u8]), Failure>
    ensures { Gives (λ x. (x.0.items, x.1.now)) result
        ((counted 3 w16 (format.method pool.now)).read bytes.now) }
{
    let (count, rest) = half_of(ClassFault::CUT, bytes)?;
    so_many_methods(alloc, pool, count, rest)
}

fn so_many_methods<'a>(
    alloc: Global,
    pool: &Slots,
    count: u16,
    bytes: &'a [u8],
) -> Result<(Vec<Method>, &'a [u8]), Failure>
    ensures { Gives (λ x. (x.0.items, x.1.now)) result
        ((repeated (format.method pool.now) count).read bytes.now) }
{
    let mut methods = Vec::new(alloc);
    let mut rest = bytes;
    let mut to_come = count;
    while to_come > 0 {
        to_come -= 1;
        let (method, others) = method_of(alloc, pool, rest)?;
        methods.push(method)?;
        rest = others;
    }
    Ok((methods, rest))
}

#[tactic(auto, unfolding(class_definition::specs::Members::method))]
fn method_of<'a>(
    alloc: Global,
    pool: &Slots,
    bytes: &'a [u8],
) -> Result<(Method, &'a [u8]), Failure>
    ensures { Gives (λ x. (x.0, x.1.now)) result ((format.method pool.now).read bytes.now) }
{
    let rest = flags_of(bytes)?;
    let (name, rest) = name_of(pool, rest)?;
    let (desc, rest) = own_descriptor_of(pool, rest)?;
    let rest = one_attribute(rest)?;
    let (attr, rest) = code_name_of(pool, rest)?;
    let ((head, code), rest) = code_attribute_of(alloc, rest)?;
    let code = Sequence::new(code.to_vec(alloc)?);
    Ok((
        Method {
            name,
            desc,
            attr,
            stack: head.stack,
            locals: head.locals,
            code,
        },
        rest,
    ))
}

/// What follows the number of attributes, which is 1.
pub fn one_attribute(bytes: &[u8]) -> Result<&[u8], Failure>
    ensures { Gives (λ x. (tt, x.now)) result ((format.attributes 1).read bytes.now) }
{
    exact_half_of(ClassFault::CUT, ClassFault::ATTRIBUTE, 1, bytes)
}
