//! Methods with their tables of frames, from bytes (JVM Specification, Java SE 7 edition, 4.6).
ghost use Rattle.std.specs.Prelude.{◌≡◌, IfOk, map};
ghost use Rattle.std.specs.Int.{w16};
ghost use Rattle.class_format.specs.Gives.{Gives};
ghost use Rattle.class_definition.specs.Format.{counted, repeated};
ghost use Rattle.class_definition.specs.Tables as format;

use crate::framed_code_reading::framed_attribute_of;
use crate::member_reading::{flags_of, one_attribute};
use crate::slots::{code_name_of, name_of, own_descriptor_of};
use class_format::{ClassFault, Failure, half_of};
use constant_pool::Slots;
use jvm_code::Method;
use jvm_definition::Sequence;
use std::alloc::Global;

/// The methods with their tables, after their number. `name` is the slot of the tables' name.
pub fn framed_methods_of<'a>(
    alloc: Global,
    pool: &Slots,
    name: Option<usize>,
    bytes: &'a [u8],
) -> Result<(Vec<(Method, Sequence<u8>)>, &'a [u8]), Failure>
    requires { name ≡ format.table_slot pool.now }
    ensures { Gives (λ x. (x.0.items, x.1.now)) result
        ((counted 3 w16 (format.framed_method pool.now)).read bytes.now) }
{
    let (count, rest) = half_of(ClassFault::CUT, bytes)?;
    so_many_methods(alloc, pool, name, count, rest)
}

fn so_many_methods<'a>(
    alloc: Global,
    pool: &Slots,
    name: Option<usize>,
    count: u16,
    bytes: &'a [u8],
) -> Result<(Vec<(Method, Sequence<u8>)>, &'a [u8]), Failure>
    requires { name ≡ format.table_slot pool.now }
    ensures { Gives (λ x. (x.0.items, x.1.now)) result
        ((repeated (format.framed_method pool.now) count).read bytes.now) }
{
    let mut methods = Vec::new(alloc);
    let mut rest = bytes;
    let mut to_come = count;
    while to_come > 0 {
        to_come -= 1;
        let (method, others) = framed_method_of(alloc, pool, name, rest)?;
        methods.push(method)?;
        rest = others;
    }
    Ok((methods, rest))
}

#[tactic(auto, unfolding(class_definition::specs::Tables::framed_method))]
fn framed_method_of<'a>(
    alloc: Global,
    pool: &Slots,
    table_name: Option<usize>,
    bytes: &'a [u8],
) -> Result<((Method, Sequence<u8>), &'a [u8]), Failure>
    requires { table_name ≡ format.table_slot pool.now }
    ensures { Gives (λ x. (x.0, x.1.now)) result ((format.framed_method pool.now).read bytes.now) }
{
    let rest = flags_of(bytes)?;
    let (name, rest) = name_of(pool, rest)?;
    let (desc, rest) = own_descriptor_of(pool, rest)?;
    let rest = one_attribute(rest)?;
    let (attr, rest) = code_name_of(pool, rest)?;
    let ((head, (code, table)), rest) = framed_attribute_of(alloc, pool, table_name, rest)?;
    let code = Sequence::new(code.to_vec(alloc)?);
    let table = Sequence::new(table.to_vec(alloc)?);
    let method = Method {
        name,
        desc,
        attr,
        stack: head.stack,
        locals: head.locals,
        code,
    };
    Ok(((method, table), rest))
}
