//! The code of a method, with a return for each byte that no reached instruction holds.
ghost use Rattle.std.specs.Prelude.{◌≡◌, ◌+◌, ◌≤◌, ◌++◌, ℕ, List, [], ◌∷◌, if◌then◌else◌, None, IfOk, OnOk, option_map};
ghost use Rattle.class_definition.specs.declared.line.Line.{Line};
ghost use Rattle.class_definition.specs.Code.{Lines, code_fault};
ghost use Rattle.jvm_code.specs.Writing.{AreCode, AreLaid};
ghost use Rattle.class_definition.specs.Sizes.{size_at};
ghost use Rattle.type_verifier.specs.Typings.{RisesFrom};
ghost use Rattle.stackmap_prune.specs.Code as code;
ghost use Rattle.stackmap_prune.specs.Linked as linked;
ghost use Rattle.stackmap_prune.specs.Listing as listing;
ghost use Rattle.stackmap_prune.specs.Pruned as pruned;

use crate::marks::{is_marked, listed_marks};
use jvm_code::{Line, Method, Op, decode_ops, encode_ops, size};
use jvm_definition::{ReturnName, Sequence};
use jvm_type_inference::Frame;
use std::alloc::{AllocError, Global};

/// A method in which each byte of code that no reached instruction holds is a return. The frames are those at the offsets that are
/// reached. If a return that gives an int is put in, there is room for an operand.
pub fn pruned_method(
    alloc: Global,
    method: &Method,
    gives_int: bool,
    reached: &[(u32, Frame)],
) -> Result<Method, AllocError>
    requires sound { code_fault method.now.code ≡ None }
    requires rises { RisesFrom 0 reached.now }
    requires closed { (lines : List Line) → Lines method.now.code lines
        → code.KeepsTargets (code.is_listed reached.now) lines }
    ensures pruned { IfOk result (code.IsPrunedMethod (code.is_listed reached.now) gives_int
        method.now) }
    ensures sound { IfOk result (λ m. code_fault m.code ≡ None) }
{
    let Ok(lines) = decode_ops(alloc, method.code.as_slice()) else {
        return Err(AllocError);
    };
    let marks = listed_marks(alloc, reached)?;
    let dead = has_dead(&lines, &marks);
    let code = pruned_bytes(alloc, method, gives_int, lines, dead, &marks)?;
    Ok(Method {
        name: method.name,
        desc: method.desc,
        attr: method.attr,
        stack: raised(gives_int, dead, method.stack),
        locals: method.locals,
        code: Sequence::new(code),
    })
}

/// The return of a method that gives an int or nothing.
pub fn return_of(gives_int: bool) -> ReturnName
    ensures { result ≡ pruned.return_of gives_int }
{
    if gives_int {
        ReturnName::Ireturn
    } else {
        ReturnName::Return
    }
}

fn raised(gives_int: bool, dead: bool, stack: u16) -> u16
    ensures { result ≡ code.raised gives_int dead stack }
{
    if gives_int && dead && stack == 0 {
        1
    } else {
        stack
    }
}

// The code with returns, where some line does not stay; and else the same code.
fn pruned_bytes(
    alloc: Global,
    method: &Method,
    gives_int: bool,
    lines: Vec<Line>,
    dead: bool,
    marks: &[bool],
) -> Result<Vec<u8>, AllocError>
    requires sound { code_fault method.now.code ≡ None }
    requires are { Lines method.now.code lines.items }
    requires code { AreCode lines.items }
    requires closed { code.KeepsTargets (linked.is_marked marks.now) lines.items }
    requires dead { dead ≡ code.has_dead (linked.is_marked marks.now) lines.items }
    ensures lines { IfOk result (λ v. Lines v.items (code.pruned_lines (linked.is_marked marks.now)
        (pruned.return_of gives_int) lines.items)) }
    ensures sound { IfOk result (λ v. code_fault v.items ≡ None) }
{
    if !dead {
        return Vec::from_slice(alloc, method.code.as_slice());
    }
    let pruned = pruned_lines(alloc, lines, return_of(gives_int), marks)?;
    encode_ops(alloc, &pruned)
}

fn has_dead(lines: &[Line], marks: &[bool]) -> bool
    ensures { result ≡ code.has_dead (linked.is_marked marks.now) lines.now }
{
    let mut rest = lines;
    while let Some((line, others)) = rest.split_first() {
        if !is_marked(marks, line.at as usize) {
            return true;
        }
        rest = others;
    }
    false
}

fn pruned_lines(
    alloc: Global,
    lines: Vec<Line>,
    name: ReturnName,
    marks: &[bool],
) -> Result<Vec<Line>, AllocError>
    requires laid { AreLaid 0 lines.items }
    ensures { IfOk result (λ v. v.items
        ≡ code.pruned_lines (linked.is_marked marks.now) name lines.items) }
{
    let mut pruned = Vec::new(alloc);
    for line in lines {
        let kept = is_marked(marks, line.at as usize);
        push_line(&mut pruned, name, kept, line)?;
    }
    Ok(pruned)
}

// Adds a line that stays, or returns in its place.
fn push_line(
    lines: &mut Vec<Line>,
    name: ReturnName,
    kept: bool,
    line: Line,
) -> Result<(), AllocError>
    requires { line.at + size_at line.at line.op ≤ 65535 }
    ensures { OnOk result (lines.new.items ≡ lines.old.items ++ (if kept then line ∷ []
        else code.returns_at name line.at (size_at line.at line.op))) }
{
    if kept {
        Ok(lines.push(line)?)
    } else {
        push_returns(lines, name, line.at, size(&line.op, line.at))
    }
}

// Adds a return for each of so many bytes.
fn push_returns(
    lines: &mut Vec<Line>,
    name: ReturnName,
    at: u32,
    size: u32,
) -> Result<(), AllocError>
    requires { at + size ≤ 65535 }
    ensures { OnOk result (lines.new.items ≡ lines.old.items ++ code.returns_at name at size) }
{
    for i in 0..size {
        lines.push(Line {
            at: at + i,
            op: Op::Give(name),
        })?;
    }
    Ok(())
}

/// The frame that is listed for an offset. The offsets rise, and the time is that of a search by halves.
pub fn listed_at(listed: &[(u32, Frame)], at: u32) -> Option<&Frame>
    requires { RisesFrom 0 listed.now }
    ensures { option_map (λ f. f.now) result ≡ listing.frame_in listed.now at }
{
    let mut rest = listed;
    while !rest.is_empty() {
        let (below, above) = rest.split_at(rest.len() / 2);
        let Some((middle, others)) = above.split_first() else {
            return None;
        };
        if middle.0 == at {
            return Some(&middle.1);
        }
        rest = if middle.0 < at { others } else { below };
    }
    None
}
