//! Steps that leave to addresses, laid down so that they leave to offsets.
ghost use Rattle.std.specs.Prelude.{◌≡◌, ◌/◌, [], ◌∷◌, ◌++◌, map, IfOk, OnOk, slice_index_or};
ghost use Rattle.emit_steps.specs.Returning.{returns};
ghost use Rattle.emit_spans.specs.Laying as laying;

use crate::NoMemory;
use crate::opening::append_opening;
use emit_steps::Step;
use jvm_definition::{Instruction, ReturnName, Sequence, TableSwitch};
use std::alloc::Global;
use word_emitter::Extent;

/// The code of a method: the switch with its targets, the parts, and the return, to which it goes otherwise.
///
/// # Errors
/// Out of memory for the code.
pub fn code_of(
    alloc: Global,
    span: Extent,
    targets: &[u32],
    otherwise: u32,
    warm: Vec<Step>,
    cold: Vec<Step>,
) -> Result<Vec<Step>, NoMemory>
    ensures { IfOk result (λ code. code.items
        ≡ laying.laid_out span targets.now otherwise (warm.items ++ cold.items)) }
{
    let mut code = Vec::new(alloc);
    append_opening(span.first, &mut code)?;
    append_switch(alloc, targets, otherwise, &mut code)?;
    append_parts(span, targets, otherwise, warm, cold, &mut code)?;
    Ok(code)
}

fn append_switch(
    alloc: Global,
    targets: &[u32],
    otherwise: u32,
    code: &mut Vec<Step>,
) -> Result<(), NoMemory>
    ensures { OnOk result (code.new.items ≡ code.old.items
        ++ laying.switch targets.now otherwise ∷ []) }
{
    let targets = Sequence::new(Vec::from_slice(alloc, targets)?);
    let switch = TableSwitch {
        default: otherwise,
        low: 0,
        targets,
    };
    code.push(Step::Selects(switch))?;
    Ok(())
}

fn append_parts(
    span: Extent,
    targets: &[u32],
    otherwise: u32,
    warm: Vec<Step>,
    cold: Vec<Step>,
    code: &mut Vec<Step>,
) -> Result<(), NoMemory>
    ensures { OnOk result (code.new.items ≡ code.old.items
        ++ (map (laying.laid_step span targets.now otherwise) (warm.items ++ cold.items)
        ++ returns ∷ [])) }
{
    append_laid(span, targets, otherwise, warm, code)?;
    append_laid(span, targets, otherwise, cold, code)?;
    code.push(Step::Does(Instruction::Return(ReturnName::Return)))?;
    Ok(())
}

fn append_laid(
    span: Extent,
    targets: &[u32],
    otherwise: u32,
    steps: Vec<Step>,
    code: &mut Vec<Step>,
) -> Result<(), NoMemory>
    ensures { OnOk result (code.new.items ≡ code.old.items
        ++ map (laying.laid_step span targets.now otherwise) steps.items) }
{
    code.reserve(steps.len())?;
    for step in steps {
        code.push(laid_step(span, targets, otherwise, step))?;
    }
    Ok(())
}

// A step that leaves to an address goes where the switch goes for that address.
fn laid_step(span: Extent, targets: &[u32], otherwise: u32, step: Step) -> Step
    ensures { result ≡ laying.laid_step span targets.now otherwise step }
{
    match step {
        Step::Leaves(at) => Step::Leaves(entry_of(span, targets, otherwise, at)),
        step => step,
    }
}

fn entry_of(span: Extent, targets: &[u32], otherwise: u32, at: u32) -> u32
    ensures { result ≡ laying.entry_of span targets.now otherwise at }
{
    if span.has(at) {
        target_of(targets, otherwise, at - span.first)
    } else {
        otherwise
    }
}

// The target of the word that stands so many bytes behind the span's first word.
fn target_of(targets: &[u32], otherwise: u32, bytes: u32) -> u32
    ensures { result ≡ slice_index_or targets.now (bytes / 4) otherwise }
{
    match targets.get((bytes / 4) as usize) {
        Some(target) => *target,
        None => otherwise,
    }
}
