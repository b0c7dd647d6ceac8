//! The frames that the table of pruned code lists.
ghost use Rattle.std.specs.Prelude.{◌≡◌, ◌||◌, ◌==◌, ◌<◌, ◌≤◌, ◌+◌, ◌^◌, ℕ, Bool, [], ◌∷◌, ◌++◌, if◌then◌else◌, IfOk, OnOk, false, true, length, option_map};
ghost use Rattle.std.specs.List.{list_any};
ghost use Rattle.jvm_definition.specs.declared.return_name.ReturnName.{ReturnName};
ghost use Rattle.jvm_definition.specs.Program.{LaidFrom};
ghost use Rattle.jvm_definition.specs.Typing as typing;
ghost use Rattle.type_verifier.specs.Typings.{RisesFrom};
ghost use Rattle.stackmap_table.specs.Last.{last_locals};
ghost use Rattle.stackmap_prune.specs.Linked as linked;
ghost use Rattle.stackmap_prune.specs.Listing as listing;
ghost use Rattle.stackmap_prune.specs.Pruned as pruned;

use crate::marks::{is_marked, listed_marks, mark};
use crate::pruning::listed_at;
use jvm_definition::{Kind, LinkedLine, LinkedMethod};
use jvm_type_inference::{Frame, KindList, SharedKinds, falls_through, targets_of};
use std::alloc::{AllocError, Global};

/// The frames that the table of a method's pruned code lists, with their offsets, which rise: one for each instruction to which a
/// branch or a switch may lead, and for each that is after one which does not go on to it. The method is the one before it is
/// pruned, and the frames that are reached are those of its least typing.
pub fn listing_of(
    alloc: Global,
    method: &LinkedMethod,
    reached: &[(u32, Frame)],
) -> Result<Vec<(u32, Frame)>, AllocError>
    requires laid { LaidFrom 0 method.now.lines }
    requires rises { RisesFrom 0 reached.now }
    ensures { IfOk result (λ v. v.items ≡ linked.listing_behind method.now reached.now) }
{
    let kept = listed_marks(alloc, reached)?;
    let marks = marks_of(alloc, method, &kept)?;
    let mut listed = Vec::new(alloc);
    let mut rest = method.lines.as_slice();
    while let Some((line, others)) = rest.split_first() {
        list_line(alloc, &mut listed, method, reached, &kept, &marks, line)?;
        rest = others;
    }
    Ok(listed)
}

// Lists the frames for what became of a line.
fn list_line(
    alloc: Global,
    listed: &mut Vec<(u32, Frame)>,
    method: &LinkedMethod,
    reached: &[(u32, Frame)],
    kept: &[bool],
    marks: &[bool],
    line: &LinkedLine,
) -> Result<(), AllocError>
    requires rises { RisesFrom 0 reached.now }
    requires sized { line.now.at ≤ line.now.next }
    ensures { OnOk result (listed.new.items ≡ listed.old.items
        ++ listing.listing (linked.is_marked marks.now) reached.now method.now.gives_int
        (last_locals method.now.parameters listed.old.items)
        (linked.pruned_linked_line (linked.is_marked kept.now)
        (pruned.return_of method.now.gives_int) line.now)) }
{
    if is_marked(kept, line.at as usize) {
        list_at(alloc, listed, method, reached, marks, line.at)
    } else {
        list_returns(
            alloc,
            listed,
            method,
            reached,
            marks,
            line.at,
            line.next - line.at,
        )
    }
}

// Lists the frames for a return in place of each of so many bytes.
fn list_returns(
    alloc: Global,
    listed: &mut Vec<(u32, Frame)>,
    method: &LinkedMethod,
    reached: &[(u32, Frame)],
    marks: &[bool],
    at: u32,
    size: u32,
) -> Result<(), AllocError>
    requires rises { RisesFrom 0 reached.now }
    requires within { at + size < 2 ^ 32 }
    ensures { OnOk result ((name : ReturnName) → listed.new.items ≡ listed.old.items
        ++ listing.listing (linked.is_marked marks.now) reached.now method.now.gives_int
        (last_locals method.now.parameters listed.old.items)
        (linked.linked_returns name at size)) }
{
    for i in 0..size {
        list_at(alloc, listed, method, reached, marks, at + i)?;
    }
    Ok(())
}

// Lists the frame for the instruction at an offset, where one has to be listed.
fn list_at(
    alloc: Global,
    listed: &mut Vec<(u32, Frame)>,
    method: &LinkedMethod,
    reached: &[(u32, Frame)],
    marks: &[bool],
    at: u32,
) -> Result<(), AllocError>
    requires { RisesFrom 0 reached.now }
    ensures { OnOk result (listed.new.items ≡ listed.old.items
        ++ (if linked.is_marked marks.now at
        then (
          at,
          listing.listed_frame (listing.frame_in reached.now at) method.now.gives_int
              (last_locals method.now.parameters listed.old.items),
        ) ∷ []
        else [])) }
{
    if !is_marked(marks, at as usize) {
        return Ok(());
    }
    let before = locals_before(method, listed);
    let frame = frame_for(alloc, listed_at(reached, at), method.gives_int, before)?;
    listed.push((at, frame))?;
    Ok(())
}

// For each offset before the code's end whether a frame has to be listed for the instruction that stands there once the method is
// pruned.
fn marks_of(alloc: Global, method: &LinkedMethod, kept: &[bool]) -> Result<Vec<bool>, AllocError>
    requires laid { LaidFrom 0 method.now.lines }
    ensures marks { IfOk result (λ v. (at : ℕ) → at < length v.items
        → linked.is_marked v.items at
        ≡ listing.must_list (linked.pruned_linked (linked.is_marked kept.now)
        (pruned.return_of method.now.gives_int) method.now.lines) at) }
    ensures all { IfOk result (λ v. listing.AllBefore (length v.items)
        (linked.pruned_linked (linked.is_marked kept.now)
        (pruned.return_of method.now.gives_int) method.now.lines)) }
{
    let mut rest = method.lines.as_slice();
    let mut marks = vec![in alloc; false; end_of(rest)]?;
    while let Some((line, others)) = rest.split_first() {
        mark_line(alloc, &mut marks, kept, line)?;
        rest = others;
    }
    Ok(marks)
}

// The end of the last line.
fn end_of(lines: &[LinkedLine]) -> usize
    requires { LaidFrom 0 lines.now }
    ensures { (kept : ℕ → Bool) (name : ReturnName)
        → listing.AllBefore result (linked.pruned_linked kept name lines.now) }
{
    match lines.split_last() {
        None => 0,
        Some((last, _others)) => last.next as usize,
    }
}

// Marks the offsets to which what became of a line leads, but for one to which it goes on.
fn mark_line(
    alloc: Global,
    marks: &mut Vec<bool>,
    kept: &[bool],
    line: &LinkedLine,
) -> Result<(), AllocError>
    requires sized { line.now.at ≤ line.now.next }
    ensures length { OnOk result (length marks.new.items ≡ length marks.old.items) }
    ensures marked { OnOk result ((name : ReturnName) (at : ℕ) → at < length marks.new.items
        → linked.is_marked marks.new.items at
        ≡ (linked.is_marked marks.old.items at || list_any (listing.is_entered_by at)
        (linked.pruned_linked_line (linked.is_marked kept.now) name line.now))) }
{
    if is_marked(kept, line.at as usize) {
        mark_ways(alloc, marks, line)
    } else {
        mark_returns(marks, line.at, line.next - line.at);
        Ok(())
    }
}

// Marks the offset behind a return in place of each of so many bytes.
fn mark_returns(marks: &mut Vec<bool>, from: u32, size: u32)
    requires { from + size < 2 ^ 32 }
    ensures length { length marks.new.items ≡ length marks.old.items }
    ensures marked { (name : ReturnName) (at : ℕ) → at < length marks.new.items
        → linked.is_marked marks.new.items at
        ≡ (linked.is_marked marks.old.items at || list_any (listing.is_entered_by at)
        (linked.linked_returns name from size)) }
{
    for i in 0..size {
        mark(marks, from as usize + i as usize + 1);
    }
}

// Marks the offsets to which a line leads, but for one to which it goes on.
fn mark_ways(alloc: Global, marks: &mut Vec<bool>, line: &LinkedLine) -> Result<(), AllocError>
    ensures length { OnOk result (length marks.new.items ≡ length marks.old.items) }
    ensures marked { OnOk result ((at : ℕ) → at < length marks.new.items
        → linked.is_marked marks.new.items at
        ≡ (linked.is_marked marks.old.items at || listing.is_entered_by at line.now)) }
{
    let targets = targets_of(alloc, &line.instruction)?;
    mark_all(marks, &targets);
    if !falls_through(&line.instruction) {
        mark(marks, line.next as usize);
    }
    Ok(())
}

fn mark_all(marks: &mut Vec<bool>, targets: &[u32])
    ensures length { length marks.new.items ≡ length marks.old.items }
    ensures marked { (at : ℕ) → at < length marks.new.items
        → linked.is_marked marks.new.items at
        ≡ (linked.is_marked marks.old.items at || list_any (λ t. t == at) targets.now) }
{
    for target in targets {
        mark(marks, *target as usize);
    }
}

// The local variables of the last frame, or the parameters.
fn locals_before<'a>(method: &'a LinkedMethod, listed: &'a [(u32, Frame)]) -> &'a [Kind]
    ensures { result.now ≡ last_locals method.now.parameters listed.now }
{
    match listed.split_last() {
        None => method.parameters.as_slice(),
        Some((last, _others)) => last.1.locals.as_slice(),
    }
}

fn frame_for(
    alloc: Global,
    reached: Option<&Frame>,
    gives_int: bool,
    before: &[Kind],
) -> Result<Frame, AllocError>
    ensures { IfOk result (λ f. f
        ≡ listing.listed_frame (option_map (λ x. x.now) reached.entry) gives_int before.now) }
{
    match reached {
        Some(frame) => frame.copied(),
        None => {
            let stack = given_by(alloc, gives_int)?;
            made(alloc, before, &stack)
        }
    }
}

fn made(alloc: Global, locals: &[Kind], stack: &[Kind]) -> Result<Frame, AllocError>
    ensures locals { IfOk result (λ f. f.locals ≡ locals.now) }
    ensures stack { IfOk result (λ f. f.stack ≡ stack.now) }
{
    let locals = SharedKinds::from_slice(alloc, locals)?;
    let stack = KindList::from_slice(alloc, stack)?;
    Ok(Frame { locals, stack })
}

// What a method gives.
fn given_by(alloc: Global, gives_int: bool) -> Result<Vec<Kind>, AllocError>
    ensures { IfOk result (λ v. v.items ≡ typing.given_by gives_int) }
{
    let mut given = Vec::new(alloc);
    if gives_int {
        given.push(Kind::Int)?;
    }
    Ok(given)
}
