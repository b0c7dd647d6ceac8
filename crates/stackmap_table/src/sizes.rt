//! How many bytes a table of frames has, which is known before it is written.
ghost use Rattle.std.specs.Prelude.{◌≡◌, ◌+◌, ◌≤◌, List, IfOk, length, true};
ghost use Rattle.class_definition.specs.declared.entry.Entry.{Entry};
ghost use Rattle.jvm_definition.specs.Typing.{no_top};
ghost use Rattle.stackmap_table.specs.declared.reference_slots.ReferenceSlots.{ReferenceSlots};
ghost use Rattle.stackmap_table.specs.Forms as forms;
ghost use Rattle.stackmap_table.specs.Last.{start_of};
ghost use Rattle.stackmap_table.specs.Shortest.{AreReferences, AreTabled, IsTabled, trimmed_locals};

use crate::form::Form;
use crate::shortest::shortest_form;
use crate::table::{delta_behind, trimmed};
use jvm_definition::Kind;
use jvm_type_inference::Frame;
use std::alloc::{AllocError, Global};

/// How many bytes the table of the frames that are listed for a method has.
pub fn table_size(
    alloc: Global,
    parameters: &[Kind],
    listed: &[(u32, Frame)],
) -> Result<u64, AllocError>
    requires tabled { AreTabled 0 listed.now }
    ensures { IfOk result (forms.IsSizeOf parameters.now listed.now) }
{
    if listed.is_empty() {
        return Ok(0);
    }
    frames_size(alloc, parameters, listed)
}

// Behind the two bytes of their number.
fn frames_size(
    alloc: Global,
    parameters: &[Kind],
    listed: &[(u32, Frame)],
) -> Result<u64, AllocError>
    requires tabled { AreTabled 0 listed.now }
    requires some { length listed.now ≡ 0 → ⊥ }
    ensures { IfOk result (forms.IsSizeOf parameters.now listed.now) }
{
    let mut size = 2;
    let mut before = parameters;
    let mut last = None;
    let mut rest = listed;
    while let Some((next, others)) = rest.split_first() {
        let locals = trimmed(next.1.locals.as_slice());
        let added = next_size(alloc, before, last, next, locals)?;
        size = more(size, added)?;
        before = locals;
        last = Some(next.0);
        rest = others;
    }
    Ok(size)
}

// A number and some more; a table has no more bytes than are counted so.
fn more(number: u64, added: u32) -> Result<u64, AllocError>
    ensures { IfOk result (λ n. n ≡ number + added) }
{
    match number.checked_add(u64::from(added)) {
        Some(sum) => Ok(sum),
        None => Err(AllocError),
    }
}

// How many bytes the shortest frame has that gives one with these local variables behind others.
fn next_size(
    alloc: Global,
    before: &[Kind],
    last: Option<u32>,
    next: &(u32, Frame),
    locals: &[Kind],
) -> Result<u32, AllocError>
    requires tabled { IsTabled (start_of last) next.now }
    requires locals { locals.now ≡ trimmed_locals next.now.1.locals }
    ensures { IfOk result (λ size. (pool : List Entry) (slots : ReferenceSlots)
        → AreReferences pool slots
        → forms.SizesNext pool before.now last next.now locals.now size) }
{
    let delta = delta_behind(last, next.0);
    let stack = next.1.stack.to_vec(alloc)?;
    let form = shortest_form(before, locals, stack.as_slice());
    Ok(form_size(delta, locals, stack.as_slice(), form))
}

fn form_size(delta: u16, locals: &[Kind], stack: &[Kind], form: Form<'_>) -> u32
    requires few_locals { length locals.now ≤ 65535 }
    requires few_operands { length stack.now ≤ 65535 }
    requires few { forms.AddsFew form }
    ensures { result ≡ forms.form_size delta locals.now stack.now form.entry }
{
    match form {
        Form::Same => 1 + delta_size(delta),
        Form::SameWithOperand(operand) => 1 + delta_size(delta) + kind_size(operand),
        Form::Chop(_dropped) => 3,
        Form::Append(added) => 3 + kinds_size(added),
        Form::Full => 7 + kinds_size(locals) + kinds_size(stack),
    }
}

fn delta_size(delta: u16) -> u32
    ensures { result ≡ forms.delta_size delta }
{
    if delta < 64 { 0 } else { 2 }
}

fn kind_size(kind: Kind) -> u32
    ensures { result ≡ forms.kind_size kind }
{
    match kind {
        Kind::Top | Kind::Int | Kind::Long | Kind::Null => 1,
        Kind::Ints | Kind::Pages | Kind::Text => 3,
    }
}

fn kinds_size(kinds: &[Kind]) -> u32
    requires { length kinds.now ≤ 65535 }
    ensures sum { result ≡ forms.kinds_size kinds.now }
    ensures small { result ≤ 196605 }
{
    let mut size = 0;
    let mut rest = kinds;
    while let Some((kind, others)) = rest.split_first() {
        size += kind_size(*kind);
        rest = others;
    }
    size
}
