//! What an instruction makes of the operands, in their place (JVM Specification, 4.10.1.4).
ghost use Rattle.std.specs.Prelude.{◌≡◌, true, false, None, Some, [], ◌++◌, ◌∷◌, IfOk, option_map, option_to_list};
ghost use Rattle.jvm_definition.specs.Effect.{last_first};
ghost use Rattle.jvm_definition.specs.Typing as typing;

use crate::kind_list::KindList;
use crate::kinds::{is_array, is_below, is_reference};
use jvm_definition::Kind;
use std::alloc::{AllocError, Global};

/// Takes operands below some types, top first; or there are no such ones.
fn takes(stack: &mut KindList, kinds: &[Kind]) -> bool
    ensures fits { result ≡ true → typing.taken kinds.now stack.old ≡ Some stack.new }
    ensures misses { result ≡ false → typing.taken kinds.now stack.old ≡ None }
{
    let mut wanted = kinds;
    while let Some((kind, others)) = wanted.split_first() {
        match stack.pop() {
            Some(operand) if is_below(operand, *kind) => {}
            _ => return false,
        }
        wanted = others;
    }
    true
}

/// Takes arguments, the last of which is uppermost; or there are no such ones.
pub fn takes_arguments(stack: &mut KindList, parameters: &[Kind]) -> bool
    ensures fits { result ≡ true
        → typing.taken (last_first parameters.now []) stack.old ≡ Some stack.new }
    ensures misses { result ≡ false
        → typing.taken (last_first parameters.now []) stack.old ≡ None }
{
    let mut wanted = parameters;
    while let Some((kind, others)) = wanted.split_last() {
        match stack.pop() {
            Some(operand) if is_below(operand, *kind) => {}
            _ => return false,
        }
        wanted = others;
    }
    true
}

/// Takes operands below some types, top first, and gives one or none; or there are no such ones.
pub fn exchanges(
    alloc: Global,
    stack: &mut KindList,
    kinds: &[Kind],
    given: Option<Kind>,
) -> Result<bool, AllocError>
    ensures fits { IfOk result (λ good. good ≡ true → option_map (λ s. option_to_list given ++ s)
        (typing.taken kinds.now stack.old) ≡ Some stack.new) }
    ensures misses { IfOk result (λ good. good ≡ false → typing.taken kinds.now stack.old ≡ None) }
{
    if !takes(stack, kinds) {
        return Ok(false);
    }
    gives(alloc, stack, given)?;
    Ok(true)
}

/// Puts an operand, or none, above the others.
#[inline(always)]
pub fn gives(alloc: Global, stack: &mut KindList, given: Option<Kind>) -> Result<(), AllocError>
    ensures { IfOk result (λ _. stack.new ≡ option_to_list given ++ stack.old) }
{
    if let Some(kind) = given {
        stack.push(alloc, kind)?;
    }
    Ok(())
}

/// Takes a reference; or none is uppermost.
pub fn takes_reference(stack: &mut KindList) -> bool
    ensures fits { result ≡ true
        → typing.taken_one typing.is_reference_kind stack.old ≡ Some stack.new }
    ensures misses { result ≡ false
        → typing.taken_one typing.is_reference_kind stack.old ≡ None }
{
    match stack.pop() {
        Some(kind) => is_reference(kind),
        None => false,
    }
}

/// Takes a reference to an array; or none is uppermost.
pub fn takes_array(stack: &mut KindList) -> bool
    ensures fits { result ≡ true
        → typing.taken_one typing.is_array_kind stack.old ≡ Some stack.new }
    ensures misses { result ≡ false
        → typing.taken_one typing.is_array_kind stack.old ≡ None }
{
    match stack.pop() {
        Some(kind) => is_array(kind),
        None => false,
    }
}
