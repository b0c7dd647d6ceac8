//! Whether the targets of instructions are lines.
ghost use Rattle.std.specs.Prelude.{◌≡◌, List, IfOk, true, map, slice_set};
ghost use Rattle.std.specs.List.{list_all};
ghost use Rattle.jvm_code.specs.Answer.{AreMarks};
ghost use Rattle.class_definition.specs.Code as format;

use class_definition::{CodeFault, Line, Op};
use jvm_definition::Pair;
use std::alloc::{AllocError, Global};

const BAD_TARGET: u32 = 3;

/// For each byte of a code of so many bytes, whether a line begins there.
pub fn marks_of(alloc: Global, size: usize, lines: &[Line]) -> Result<Vec<bool>, AllocError>
    ensures { IfOk result (λ marks. AreMarks lines.now marks.items) }
{
    let mut marks = vec![in alloc; false; size]?;
    for line in lines {
        mark(&mut marks, line.at as usize);
    }
    Ok(marks)
}

fn mark(marks: &mut Vec<bool>, at: usize)
    ensures { marks.new.items ≡ slice_set marks.old.items at true }
{
    if at < marks.len() {
        marks[at] = true;
    }
}

/// The first line with a target that is no line's offset.
pub fn target_fault(marks: &[bool], lines: &[Line]) -> Option<CodeFault>
    requires { AreMarks lines.now marks.now }
    ensures { result ≡ format.line_target_fault lines.now lines.now }
{
    let mut rest = lines;
    while let Some((line, others)) = rest.split_first() {
        if !are_targets_lines(marks, lines, &line.op) {
            return Some(CodeFault {
                at: line.at,
                kind: BAD_TARGET,
            });
        }
        rest = others;
    }
    None
}

fn are_targets_lines(marks: &[bool], lines: &[Line], op: &Op) -> bool
    requires { AreMarks lines.now marks.now }
    ensures { result ≡ list_all (format.is_line lines.now) (format.targets_of op.now) }
{
    match op {
        Op::Branch(_, target) => is_line(marks, lines, *target),
        Op::GotoW(target) => is_line(marks, lines, *target),
        Op::TableSwitch(switch) => {
            let switch = switch.get();
            is_line(marks, lines, switch.default)
                && are_lines(marks, lines, switch.targets.as_slice())
        }
        Op::LookupSwitch(switch) => {
            let switch = switch.get();
            is_line(marks, lines, switch.default)
                && are_pairs_lines(marks, lines, switch.pairs.as_slice())
        }
        _ => true,
    }
}

fn are_lines(marks: &[bool], lines: &[Line], targets: &[u32]) -> bool
    requires { AreMarks lines.now marks.now }
    ensures { result ≡ list_all (format.is_line lines.now) targets.now }
{
    let mut rest = targets;
    while let Some((target, others)) = rest.split_first() {
        if !is_line(marks, lines, *target) {
            return false;
        }
        rest = others;
    }
    true
}

fn are_pairs_lines(marks: &[bool], lines: &[Line], pairs: &[Pair]) -> bool
    requires { AreMarks lines.now marks.now }
    ensures { result ≡ list_all (format.is_line lines.now) (map (λ p. p.target) pairs.now) }
{
    let mut rest = pairs;
    while let Some((pair, others)) = rest.split_first() {
        if !is_line(marks, lines, pair.target) {
            return false;
        }
        rest = others;
    }
    true
}

// A target past the marks is looked for among the lines: it is not there, so this ends the search for the first fault.
fn is_line(marks: &[bool], lines: &[Line], target: u32) -> bool
    requires { AreMarks lines.now marks.now }
    ensures { result ≡ format.is_line lines.now target }
{
    match marks.get(target as usize) {
        Some(mark) => *mark,
        None => is_among(lines, target),
    }
}

fn is_among(lines: &[Line], target: u32) -> bool
    ensures { result ≡ format.is_line lines.now target }
{
    let mut rest = lines;
    while let Some((line, others)) = rest.split_first() {
        if line.at == target {
            return true;
        }
        rest = others;
    }
    false
}
