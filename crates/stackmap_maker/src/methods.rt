//! The methods of a class, one after the other: each is inferred once, and nothing of it is kept but its code and its table.
ghost use Rattle.std.specs.Prelude.{◌≡◌, ◌+◌, ◌<◌, ◌≤◌, List, IfOk, MatchOption, None, Some, length, slice_get};
ghost use Rattle.class_definition.specs.declared.entry.Entry.{Entry};
ghost use Rattle.class_definition.specs.declared.line.Line.{Line};
ghost use Rattle.class_definition.specs.declared.method.Method.{Method};
ghost use Rattle.class_definition.specs.Code.{Lines, code_fault};
ghost use Rattle.jvm_definition.specs.Program.{LaidFrom};
ghost use Rattle.type_verifier.specs.Refusal.{methods_before};
ghost use Rattle.type_verifier.specs.Typings.{RisesFrom};
ghost use Rattle.stackmap_table.specs.Shortest.{AreReferences, AreTabled, IsTableOf};
ghost use Rattle.stackmap_pool.specs.Longer.{framed_pool};
ghost use Rattle.stackmap_prune.specs.Code as code;
ghost use Rattle.stackmap_prune.specs.Linked.{listing_behind};
ghost use Rattle.stackmap_maker.specs.Full.{AreNotTyped};
ghost use Rattle.stackmap_maker.specs.Made as made;

use crate::sized_table::SizedTable;
use crate::sizes::{left, with_method};
use crate::tabled_method::TabledMethod;
use crate::tabled_methods::TabledMethods;
use constant_pool::Entry;
use jvm_code::{Class, Method};
use jvm_definition::{Kind, LinkedMethod, Sequence};
use jvm_link::Linked;
use stackmap_pool::reference_slots;
use stackmap_prune::{listing_of, pruned_method};
use stackmap_table::{ReferenceSlots, table_of_frames, table_size};
use std::alloc::{AllocError, Global};
use type_verifier::{Frame, MethodTyping, typing_of};

/// The methods of a class, whose first one has a number in the program, with their tables over a pool. The tables are written as
/// long as the methods take no more bytes than there is room for.
pub fn methods_with_tables(
    alloc: Global,
    linked: &Linked,
    number: u32,
    first: usize,
    class: &Class,
    pool: &[Entry],
    room: u64,
) -> Result<Option<TabledMethods>, AllocError>
    requires there { slice_get linked.now.classes number ≡ Some class.now }
    requires first { first ≡ methods_before linked.now.classes number }
    requires pool { pool.now ≡ framed_pool class.now.pool }
    requires few { length pool.now ≤ 65534 }
    ensures { IfOk result (λ o. MatchOption o (AreNotTyped linked.now.classes)
        (λ t. made.AreMadeWithin linked.now.classes number class.now pool.now room
        class.now.methods t.methods.items t.tables.items t.bytes)) }
{
    let slots = reference_slots(pool);
    let count = class.methods.as_slice().len();
    let mut methods = Vec::new(alloc);
    let mut tables = Vec::new(alloc);
    let mut bytes = 0;
    for method in 0..count {
        let Some(tabled) = method_with_table(
            alloc,
            linked,
            number,
            first,
            class,
            pool,
            slots,
            method,
            left(room, bytes),
        )?
        else {
            return Ok(None);
        };
        bytes = with_method(bytes, &tabled.method, tabled.table.size)?;
        methods.push(tabled.method)?;
        tables.push(tabled.table.bytes)?;
    }
    Ok(Some(TabledMethods {
        methods,
        tables,
        bytes,
    }))
}

// A method of a class, the first of which has a number in the program; None where it is not typed.
fn method_with_table(
    alloc: Global,
    linked: &Linked,
    number: u32,
    first: usize,
    class: &Class,
    pool: &[Entry],
    slots: ReferenceSlots,
    method: usize,
    room: u64,
) -> Result<Option<TabledMethod>, AllocError>
    requires there { slice_get linked.now.classes number ≡ Some class.now }
    requires first { first ≡ methods_before linked.now.classes number }
    requires references { AreReferences pool.now slots }
    requires within { method < length class.now.methods }
    ensures { IfOk result (λ o. MatchOption o (AreNotTyped linked.now.classes)
        (λ t. (m : Method) → slice_get class.now.methods method ≡ Some m
        → made.IsMadeWithin linked.now.classes number class.now pool.now room m t.method
        t.table.bytes t.table.size)) }
{
    let own = own_at(class, method);
    let program = method_at(linked.methods.as_slice(), first, method);
    match typing_of(alloc, linked, number, number_of(method)?)? {
        MethodTyping::Listed(reached) => {
            let tabled = pruned_with_table(alloc, own, program, &reached, pool, slots, room)?;
            Ok(Some(tabled))
        }
        MethodTyping::Fails(_at) => Ok(None),
    }
}

fn own_at(class: &Class, method: usize) -> &Method
    requires { method < length class.now.methods }
    ensures { slice_get class.now.methods method ≡ Some result.now }
{
    &class.methods.as_slice()[method]
}

// A method of a class, the first of which has a number.
fn method_at<'a>(methods: &'a [LinkedMethod], first: usize, method: usize) -> &'a LinkedMethod
    requires { first + method < length methods.now }
    ensures { slice_get methods.now (first + method) ≡ Some result.now }
{
    &methods[first + method]
}

// A method that is pruned, by the frames at the offsets that are reached, with its table.
fn pruned_with_table(
    alloc: Global,
    own: &Method,
    linked: &LinkedMethod,
    reached: &[(u32, Frame)],
    pool: &[Entry],
    slots: ReferenceSlots,
    room: u64,
) -> Result<TabledMethod, AllocError>
    requires sound { code_fault own.now.code ≡ None }
    requires rises { RisesFrom 0 reached.now }
    requires closed { (lines : List Line) → Lines own.now.code lines
        → code.KeepsTargets (code.is_listed reached.now) lines }
    requires laid { LaidFrom 0 linked.now.lines }
    requires references { AreReferences pool.now slots }
    requires tabled { (n : Method) → code_fault n.code ≡ None
        → code.IsPrunedMethod (code.is_listed reached.now) linked.now.gives_int own.now n
        → AreTabled 0 (listing_behind linked.now reached.now) }
    ensures pruned { IfOk result (λ t. code.IsPrunedMethod (code.is_listed reached.now)
        linked.now.gives_int own.now t.method) }
    ensures sound { IfOk result (λ t. code_fault t.method.code ≡ None) }
    ensures tabled { IfOk result (λ t. made.IsTableWithin pool.now linked.now.parameters
        (listing_behind linked.now reached.now) room t.table.bytes t.table.size) }
{
    let method = pruned_method(alloc, own, linked.gives_int, reached)?;
    let listed = listing_of(alloc, linked, reached)?;
    let parameters = linked.parameters.as_slice();
    let table = table_within(alloc, pool, slots, parameters, &listed, room)?;
    Ok(TabledMethod { method, table })
}

// The table of the frames that are listed, which is written where there is room for it.
fn table_within(
    alloc: Global,
    pool: &[Entry],
    slots: ReferenceSlots,
    parameters: &[Kind],
    listed: &[(u32, Frame)],
    room: u64,
) -> Result<SizedTable, AllocError>
    requires references { AreReferences pool.now slots }
    requires tabled { AreTabled 0 listed.now }
    ensures { IfOk result (λ t. made.IsTableWithin pool.now parameters.now listed.now room t.bytes
        t.size) }
{
    let size = table_size(alloc, parameters, listed)?;
    if room < size {
        return Ok(SizedTable {
            bytes: Sequence::new(Vec::new(alloc)),
            size,
        });
    }
    let table = table_of_frames(alloc, pool, slots, parameters, listed)?;
    let size = table.len() as u64;
    Ok(SizedTable {
        bytes: Sequence::new(table),
        size,
    })
}

/// A number; AllocError where it is above 2^32 - 1, as it would be with classes of which no memory has room.
pub fn number_of(number: usize) -> Result<u32, AllocError>
    ensures { IfOk result (λ n. n ≡ number) }
{
    match u32::try_from(number) {
        Ok(number) => Ok(number),
        Err(_) => Err(AllocError),
    }
}
