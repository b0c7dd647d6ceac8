//! Whether classes are typed by their tables of frames (JVM Specification, Java SE 7 edition, 4.10.1).
ghost use Rattle.std.specs.Prelude.{◌≡◌, ◌+◌, ◌<◌, ◌≤◌, ℕ, All, IfOk, IfErr, Some, length, slice_get, slice_index_or, []};
ghost use Rattle.class_definition.specs.declared.class.Class.{Class};
ghost use Rattle.class_definition.specs.Linking.{program_of};
ghost use Rattle.jvm_code.specs.Order.{IsInOrder};
ghost use Rattle.jvm_definition.specs.declared.linked_method.LinkedMethod.{LinkedMethod};
ghost use Rattle.jvm_type_inference.specs.Actions.{program_over};
ghost use Rattle.frame_maps.specs.Checked as checked;

use crate::frame_error::FrameError;
use crate::placing::placed;
use crate::walk::is_framed;
use class_definition::FrameFault;
use constant_pool::Entry;
use jvm_code::Class;
use jvm_definition::{LinkedMethod, Sequence};
use jvm_link::Linked;
use jvm_type_inference::{Code, starts_of};
use stackmap_table::listed_frames;
use std::alloc::{AllocError, Global};

/// Passes, exactly if each method of each class is typed by the frames that its table lists: one list of tables for each
/// class, and in it one table for each method.
///
/// # Errors
///
/// Refused: the first method, by class and then by method, whose table is none ([`FrameFault::TABLE`]) or is no typing of it
/// ([`FrameFault::NOT_TYPING`]). NoMemory.
pub fn check(
    alloc: Global,
    linked: &Linked,
    tables: &[Sequence<Sequence<u8>>],
) -> Result<(), FrameError>
    requires { checked.HaveTables linked.now.classes tables.now }
    ensures passes { IfOk result (λ _. checked.AreTyped linked.now.classes tables.now) }
    ensures refused { IfErr result (checked.IsCheckRefusal linked.now.classes tables.now) }
{
    let classes = linked.classes.as_slice();
    let methods = linked.methods.as_slice();
    let mut first = 0;
    for number in 0..classes.len() {
        let class = &classes[number];
        let pool = class.pool.as_slice();
        if let Some((method, kind)) = first_fault(
            alloc,
            methods,
            first,
            pool,
            tables[number].as_slice(),
        )? {
            return Err(refusal(number, method, kind));
        }
        first = behind(first, class, methods.len());
    }
    Ok(())
}

// The number of the method behind those of a class, the first of which has a number.
fn behind(first: usize, class: &Class, count: usize) -> usize
    requires { first + length class.now.methods ≤ count }
    ensures { result ≡ first + length class.now.methods }
{
    first + class.methods.as_slice().len()
}

fn refusal(class: usize, method: usize, kind: u32) -> FrameError
    ensures { checked.IsFault class method kind result }
{
    match (u32::try_from(class), u32::try_from(method)) {
        (Ok(class), Ok(method)) => FrameError::Refused(FrameFault {
            class,
            method,
            kind,
        }),
        _ => FrameError::NoMemory,
    }
}

// The first method of a class that does not pass, and why. The first of all has a number in the program.
fn first_fault(
    alloc: Global,
    methods: &[LinkedMethod],
    first: usize,
    pool: &[Entry],
    tables: &[Sequence<u8>],
) -> Result<Option<(usize, u32)>, AllocError>
    requires there { first + length tables.now ≤ length methods.now }
    requires in_order { All IsInOrder methods.now }
    ensures { IfOk result (checked.IsFirstOf (program_over methods.now) first pool.now tables.now) }
{
    for number in 0..tables.len() {
        let table = tables[number].as_slice();
        if let Some(kind) = fault_of(alloc, methods, first + number, pool, table)? {
            return Ok(Some((number, kind)));
        }
    }
    Ok(None)
}

// Why a method does not pass, if it does not.
fn fault_of(
    alloc: Global,
    methods: &[LinkedMethod],
    number: usize,
    pool: &[Entry],
    table: &[u8],
) -> Result<Option<u32>, AllocError>
    requires there { number < length methods.now }
    requires in_order { All IsInOrder methods.now }
    ensures { IfOk result (λ kind. (method : LinkedMethod)
        → slice_get methods.now number ≡ Some method
        → checked.IsResult (program_over methods.now) pool.now method table.now kind) }
{
    let method = &methods[number];
    let Some(listed) = listed_frames(alloc, pool, method, table)? else {
        return Ok(Some(FrameFault::TABLE));
    };
    let starts = starts_of(alloc, method.lines.as_slice())?;
    let code = Code {
        methods,
        method,
        starts,
    };
    let Some(frames) = placed(alloc, &code, listed)? else {
        return Ok(Some(FrameFault::NOT_TYPING));
    };
    if is_framed(alloc, &code, &frames)? {
        Ok(None)
    } else {
        Ok(Some(FrameFault::NOT_TYPING))
    }
}
