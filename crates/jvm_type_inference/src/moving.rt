//! The instructions that move operands, in their place (JVM Specification, 2.11.6).
ghost use Rattle.std.specs.Prelude.{◌≡◌, true, false, None, Some, [], ◌∷◌, IfOk, MatchOption};
ghost use Rattle.jvm_definition.specs.declared.stack_name.StackName.TheVariants as names;
ghost use Rattle.jvm_definition.specs.Shuffles.{shuffled, forms_of};
ghost use Rattle.jvm_definition.specs.Typing.{is_long_kind};

use crate::kind_list::KindList;
use crate::kinds::is_long;
use jvm_definition::{Kind, StackName};
use std::alloc::{AllocError, Global};

/// Moves operands; or they do not fit the instruction.
pub fn moves(alloc: Global, stack: &mut KindList, name: StackName) -> Result<bool, AllocError>
    ensures fits { IfOk result (λ good. good ≡ true
        → shuffled is_long_kind (forms_of name) stack.old ≡ Some stack.new) }
    ensures misses { IfOk result (λ good. good ≡ false
        → shuffled is_long_kind (forms_of name) stack.old ≡ None) }
{
    match name {
        StackName::Pop => Ok(one(stack).is_some()),
        StackName::Pop2 => Ok(pop2(stack)),
        StackName::Dup => dup(alloc, stack),
        StackName::DupX1 => dup_x1(alloc, stack),
        StackName::DupX2 => dup_x2(alloc, stack),
        StackName::Dup2 => dup2(alloc, stack),
        StackName::Swap => swap(alloc, stack),
    }
}

// Takes an operand that is no long.
fn one(stack: &mut KindList) -> Option<Kind>
    ensures { MatchOption result
        (shuffled is_long_kind (forms_of names.Pop) stack.old ≡ None)
        (λ k. (stack.old ≡ k ∷ stack.new) × (is_long_kind k ≡ false)) }
{
    match stack.pop() {
        Some(kind) if !is_long(kind) => Some(kind),
        _ => None,
    }
}

// Takes a long, or the two uppermost operands.
fn pop2(stack: &mut KindList) -> bool
    ensures fits { result ≡ true
        → shuffled is_long_kind (forms_of names.Pop2) stack.old ≡ Some stack.new }
    ensures misses { result ≡ false
        → shuffled is_long_kind (forms_of names.Pop2) stack.old ≡ None }
{
    let Some(upper) = stack.pop() else {
        return false;
    };
    if is_long(upper) {
        return true;
    }
    one(stack).is_some()
}

// Puts the uppermost operand once more above it.
fn dup(alloc: Global, stack: &mut KindList) -> Result<bool, AllocError>
    ensures fits { IfOk result (λ good. good ≡ true
        → shuffled is_long_kind (forms_of names.Dup) stack.old ≡ Some stack.new) }
    ensures misses { IfOk result (λ good. good ≡ false
        → shuffled is_long_kind (forms_of names.Dup) stack.old ≡ None) }
{
    let Some(kind) = one(stack) else {
        return Ok(false);
    };
    stack.push(alloc, kind)?;
    stack.push(alloc, kind)?;
    Ok(true)
}

// Puts the uppermost operand once more below the next one.
fn dup_x1(alloc: Global, stack: &mut KindList) -> Result<bool, AllocError>
    ensures fits { IfOk result (λ good. good ≡ true
        → shuffled is_long_kind (forms_of names.DupX1) stack.old ≡ Some stack.new) }
    ensures misses { IfOk result (λ good. good ≡ false
        → shuffled is_long_kind (forms_of names.DupX1) stack.old ≡ None) }
{
    let Some(upper) = one(stack) else {
        return Ok(false);
    };
    let Some(lower) = one(stack) else {
        return Ok(false);
    };
    stack.push(alloc, upper)?;
    stack.push(alloc, lower)?;
    stack.push(alloc, upper)?;
    Ok(true)
}

// Puts the uppermost operand once more below a long, or below the two next ones.
fn dup_x2(alloc: Global, stack: &mut KindList) -> Result<bool, AllocError>
    ensures fits { IfOk result (λ good. good ≡ true
        → shuffled is_long_kind (forms_of names.DupX2) stack.old ≡ Some stack.new) }
    ensures misses { IfOk result (λ good. good ≡ false
        → shuffled is_long_kind (forms_of names.DupX2) stack.old ≡ None) }
{
    let Some(upper) = one(stack) else {
        return Ok(false);
    };
    let Some(next) = stack.pop() else {
        return Ok(false);
    };
    if is_long(next) {
        stack.push(alloc, upper)?;
        stack.push(alloc, next)?;
        stack.push(alloc, upper)?;
        return Ok(true);
    }
    let Some(lowest) = one(stack) else {
        return Ok(false);
    };
    stack.push(alloc, upper)?;
    stack.push(alloc, lowest)?;
    stack.push(alloc, next)?;
    stack.push(alloc, upper)?;
    Ok(true)
}

// Puts a long, or the two uppermost operands, once more above.
fn dup2(alloc: Global, stack: &mut KindList) -> Result<bool, AllocError>
    ensures fits { IfOk result (λ good. good ≡ true
        → shuffled is_long_kind (forms_of names.Dup2) stack.old ≡ Some stack.new) }
    ensures misses { IfOk result (λ good. good ≡ false
        → shuffled is_long_kind (forms_of names.Dup2) stack.old ≡ None) }
{
    let Some(upper) = stack.pop() else {
        return Ok(false);
    };
    if is_long(upper) {
        stack.push(alloc, upper)?;
        stack.push(alloc, upper)?;
        return Ok(true);
    }
    let Some(lower) = one(stack) else {
        return Ok(false);
    };
    stack.push(alloc, lower)?;
    stack.push(alloc, upper)?;
    stack.push(alloc, lower)?;
    stack.push(alloc, upper)?;
    Ok(true)
}

// Moves the uppermost operand below the next one.
fn swap(alloc: Global, stack: &mut KindList) -> Result<bool, AllocError>
    ensures fits { IfOk result (λ good. good ≡ true
        → shuffled is_long_kind (forms_of names.Swap) stack.old ≡ Some stack.new) }
    ensures misses { IfOk result (λ good. good ≡ false
        → shuffled is_long_kind (forms_of names.Swap) stack.old ≡ None) }
{
    let Some(upper) = one(stack) else {
        return Ok(false);
    };
    let Some(lower) = one(stack) else {
        return Ok(false);
    };
    stack.push(alloc, upper)?;
    stack.push(alloc, lower)?;
    Ok(true)
}
