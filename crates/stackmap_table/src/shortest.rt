//! The shortest frame of a table that gives local variables and operands (JVM Specification, Java SE 7 edition, 4.7.4).
ghost use Rattle.std.specs.Prelude.{◌≡◌, ◌≤◌, ◌++◌, false, List, IfOk, MatchOption, if◌then◌else◌, nat_lt, length, map, true};
ghost use Rattle.class_definition.specs.declared.entry.Entry.{Entry};
ghost use Rattle.jvm_definition.specs.declared.kind.Kind.{Kind};
ghost use Rattle.jvm_definition.specs.Typing.{no_top, same_kind};
ghost use Rattle.stackmap_table.specs.declared.table_frame.TableFrame.TheVariants.{Same, SameExtended, SameWithOperand, SameWithOperandExtended};
ghost use Rattle.stackmap_table.specs.Forms.{AddsFew, IsShortestForm, frame_by};
ghost use Rattle.stackmap_table.specs.declared.form.Form.TheVariants as forms;
ghost use Rattle.stackmap_table.specs.Shortest.{AreReferences, GivesShortest, has_no_long, written_type};

use crate::form::Form;
use crate::reference_slots::ReferenceSlots;
use crate::table_frame::TableFrame;
use crate::table_type::TableType;
use jvm_definition::{Kind, Sequence};
use std::alloc::{AllocError, Global};

/// The shortest frame after others that gives local variables and operands, the latter with the top first. The slots are those
/// of the pool.
pub fn shortest_frame(
    alloc: Global,
    slots: ReferenceSlots,
    before: &[Kind],
    delta: u16,
    locals: &[Kind],
    stack: &[Kind],
) -> Result<TableFrame, AllocError>
    requires locals { has_no_long locals.now ≡ true }
    requires few_locals { length locals.now ≤ 65535 }
    requires operands { no_top stack.now ≡ true }
    requires few_operands { length stack.now ≤ 65535 }
    ensures { IfOk result (λ f. (pool : List Entry) → AreReferences pool slots
        → GivesShortest pool before.now delta locals.now stack.now f) }
{
    let form = shortest_form(before, locals, stack);
    frame_of(alloc, slots, delta, locals, stack, form)
}

/// The form of that frame.
pub fn shortest_form<'a>(before: &[Kind], locals: &'a [Kind], stack: &[Kind]) -> Form<'a>
    requires locals { has_no_long locals.now ≡ true }
    requires few_locals { length locals.now ≤ 65535 }
    requires operands { no_top stack.now ≡ true }
    requires few_operands { length stack.now ≤ 65535 }
    ensures shortest { IsShortestForm before.now locals.now stack.now result }
    ensures few { AddsFew result }
{
    if let Some(added) = behind(before, locals) {
        return grown(before, locals, stack, added);
    }
    match behind(locals, before) {
        Some(dropped) => shrunk(before, locals, stack, dropped),
        None => Form::Full,
    }
}

// Where local variables are dropped.
fn shrunk<'a>(before: &[Kind], locals: &'a [Kind], stack: &[Kind], dropped: &[Kind]) -> Form<'a>
    requires dropped { before.now ≡ locals.now ++ dropped.now }
    requires not_grown { (rest : List Kind) → locals.now ≡ before.now ++ rest → ⊥ }
    requires locals { has_no_long locals.now ≡ true }
    requires few_locals { length locals.now ≤ 65535 }
    requires operands { no_top stack.now ≡ true }
    requires few_operands { length stack.now ≤ 65535 }
    ensures shortest { IsShortestForm before.now locals.now stack.now result }
    ensures few { AddsFew result }
{
    if !are_few(stack, dropped) {
        return Form::Full;
    }
    Form::Chop(dropped.len() as u8)
}

// Where local variables are added, or none.
fn grown<'a>(before: &[Kind], locals: &'a [Kind], stack: &[Kind], added: &'a [Kind]) -> Form<'a>
    requires added { locals.now ≡ before.now ++ added.now }
    requires locals { has_no_long locals.now ≡ true }
    requires few_locals { length locals.now ≤ 65535 }
    requires operands { no_top stack.now ≡ true }
    requires few_operands { length stack.now ≤ 65535 }
    ensures shortest { IsShortestForm before.now locals.now stack.now result }
    ensures few { AddsFew result }
{
    if added.is_empty() {
        return unmoved(before, locals, stack);
    }
    if !are_few(stack, added) {
        return Form::Full;
    }
    Form::Append(added)
}

// Where the local variables are the same.
fn unmoved<'a>(before: &[Kind], locals: &'a [Kind], stack: &[Kind]) -> Form<'a>
    requires same { locals.now ≡ before.now }
    requires locals { has_no_long locals.now ≡ true }
    requires few_locals { length locals.now ≤ 65535 }
    requires operands { no_top stack.now ≡ true }
    requires few_operands { length stack.now ≤ 65535 }
    ensures shortest { IsShortestForm before.now locals.now stack.now result }
    ensures few { AddsFew result }
{
    let Some((operand, others)) = stack.split_first() else {
        return Form::Same;
    };
    if !others.is_empty() {
        return Form::Full;
    }
    Form::SameWithOperand(*operand)
}

// Whether there are no operands, and at most three of some local variables.
fn are_few(stack: &[Kind], locals: &[Kind]) -> bool
    ensures few { result ≡ true → length locals.now ≤ 3 }
    ensures empty { result ≡ true → length stack.now ≡ 0 }
    ensures many { result ≡ false → length locals.now ≤ 3 → 1 ≤ length stack.now }
{
    stack.is_empty() && locals.len() <= 3
}

fn same(delta: u16) -> TableFrame
    ensures { result ≡ (if nat_lt delta 64 then Same delta else SameExtended delta) }
{
    if delta < 64 {
        TableFrame::Same(delta as u8)
    } else {
        TableFrame::SameExtended(delta)
    }
}

fn same_with_operand(slots: ReferenceSlots, delta: u16, operand: Kind) -> TableFrame
    ensures { result ≡ (if nat_lt delta 64 then SameWithOperand delta (written_type slots operand)
        else SameWithOperandExtended delta (written_type slots operand)) }
{
    let operand = type_of(slots, operand);
    if delta < 64 {
        TableFrame::SameWithOperand(delta as u8, operand)
    } else {
        TableFrame::SameWithOperandExtended(delta, operand)
    }
}

// The frame of a form that gives local variables and operands.
fn frame_of(
    alloc: Global,
    slots: ReferenceSlots,
    delta: u16,
    locals: &[Kind],
    stack: &[Kind],
    form: Form<'_>,
) -> Result<TableFrame, AllocError>
    ensures { IfOk result (λ f. f ≡ frame_by slots delta locals.now stack.now form.entry) }
{
    match form {
        Form::Same => Ok(same(delta)),
        Form::SameWithOperand(operand) => Ok(same_with_operand(slots, delta, operand)),
        Form::Chop(dropped) => Ok(TableFrame::Chop(delta, dropped)),
        Form::Append(added) => {
            let types = types_of(alloc, slots, added)?;
            Ok(TableFrame::Append(delta, Sequence::new(types)))
        }
        Form::Full => full(alloc, slots, delta, locals, stack),
    }
}

// The frame that names all local variables and operands.
fn full(
    alloc: Global,
    slots: ReferenceSlots,
    delta: u16,
    locals: &[Kind],
    stack: &[Kind],
) -> Result<TableFrame, AllocError>
    ensures { IfOk result (λ f. f ≡ frame_by slots delta locals.now stack.now forms.Full) }
{
    let locals = types_of(alloc, slots, locals)?;
    let mut operands = types_of(alloc, slots, stack)?;
    operands.reverse();
    Ok(TableFrame::Full(delta, Sequence::new(locals), Sequence::new(operands)))
}

fn types_of(
    alloc: Global,
    slots: ReferenceSlots,
    kinds: &[Kind],
) -> Result<Vec<TableType>, AllocError>
    ensures { IfOk result (λ v. v.items ≡ map (written_type slots) kinds.now) }
{
    let mut types = Vec::new(alloc);
    for kind in kinds {
        types.push(type_of(slots, *kind))?;
    }
    Ok(types)
}

fn type_of(slots: ReferenceSlots, kind: Kind) -> TableType
    ensures { result ≡ written_type slots kind }
{
    match kind {
        Kind::Top => TableType::Top,
        Kind::Int => TableType::Int,
        Kind::Long => TableType::Long,
        Kind::Null => TableType::Null,
        Kind::Ints => TableType::Object(slots.ints),
        Kind::Pages => TableType::Object(slots.pages),
        Kind::Text => TableType::Object(slots.text),
    }
}

// What stands behind the types at the front, if they stand there.
fn behind<'a>(front: &[Kind], kinds: &'a [Kind]) -> Option<&'a [Kind]>
    ensures { MatchOption result
        ((rest : List Kind) → kinds.now ≡ front.now ++ rest → ⊥)
        (λ rest. kinds.now ≡ front.now ++ rest.now) }
{
    let mut wanted = front;
    let mut rest = kinds;
    while let Some((kind, others)) = wanted.split_first() {
        let (first, behind) = rest.split_first()?;
        if !is_same(*kind, *first) {
            return None;
        }
        wanted = others;
        rest = behind;
    }
    Some(rest)
}

/// Whether two types are the same.
pub fn is_same(kind: Kind, other: Kind) -> bool
    ensures { result ≡ same_kind kind other }
{
    match (kind, other) {
        (Kind::Top, Kind::Top)
        | (Kind::Int, Kind::Int)
        | (Kind::Long, Kind::Long)
        | (Kind::Null, Kind::Null)
        | (Kind::Ints, Kind::Ints)
        | (Kind::Pages, Kind::Pages)
        | (Kind::Text, Kind::Text) => true,
        _ => false,
    }
}
