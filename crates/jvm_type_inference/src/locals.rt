//! What an instruction makes of the local variables, in their place (JVM Specification, 4.10.1.4).
ghost use Rattle.std.specs.Prelude.{◌≡◌, ◌<◌, ◌≤◌, ◌^◌, ℕ, true, false, None, Some, IfOk, length, slice_index_or, ◌==◌, if◌then◌else◌};
ghost use Rattle.jvm_definition.specs.declared.kind.Kind.TheVariants as kinds;
ghost use Rattle.jvm_definition.specs.Typing as typing;
ghost use Rattle.jvm_type_inference.specs.Working.{working};

use crate::kind_list::KindList;
use crate::kinds::{is_moved, is_same};
use crate::shared_kinds::SharedKinds;
use jvm_definition::{Kind, LocalKind};
use std::alloc::{AllocError, Global};

/// Puts a local variable above the operands.
pub fn loads(
    alloc: Global,
    locals: &[Kind],
    stack: &mut KindList,
    moved: LocalKind,
    index: usize,
) -> Result<bool, AllocError>
    ensures fits { IfOk result (λ good. good ≡ true
        → typing.applied (typing.loads moved index) (working locals.now stack.old)
        ≡ Some (working locals.now stack.new)) }
    ensures misses { IfOk result (λ good. good ≡ false
        → typing.applied (typing.loads moved index) (working locals.now stack.old) ≡ None) }
{
    let kind = local_at(locals, index);
    if !is_moved(moved, kind) {
        return Ok(false);
    }
    stack.push(alloc, kind)?;
    Ok(true)
}

/// Takes the uppermost operand to a local variable.
pub fn stores(
    alloc: Global,
    locals: &mut SharedKinds,
    stack: &mut KindList,
    moved: LocalKind,
    index: usize,
) -> Result<bool, AllocError>
    requires { index < 2 ^ 8 }
    ensures fits { IfOk result (λ good. good ≡ true
        → typing.applied (typing.stores moved index) (working locals.old stack.old)
        ≡ Some (working locals.new stack.new)) }
    ensures misses { IfOk result (λ good. good ≡ false
        → typing.applied (typing.stores moved index) (working locals.old stack.old)
        ≡ None) }
    ensures sized { IfOk result (λ _. (n : ℕ) → length locals.old ≤ n → index < n
        → length locals.new ≤ n) }
{
    match stack.pop() {
        Some(kind) if is_moved(moved, kind) => {
            *locals = with_local(alloc, locals, index, kind)?;
            Ok(true)
        }
        _ => Ok(false),
    }
}

// Local variables of which one has another type.
fn with_local(
    alloc: Global,
    locals: &SharedKinds,
    index: usize,
    kind: Kind,
) -> Result<SharedKinds, AllocError>
    requires { index < 2 ^ 8 }
    ensures kinds { IfOk result (λ s. (i : ℕ) → slice_index_or s i kinds.Top
        ≡ (if i == index then kind else slice_index_or locals.now i kinds.Top)) }
    ensures sized { IfOk result (λ s. (n : ℕ) → length locals.now ≤ n → index < n
        → length s ≤ n) }
{
    if is_same(local_at(locals.as_slice(), index), kind) {
        return locals.shared();
    }
    let kinds = with_kind(alloc, locals.as_slice(), index, kind)?;
    SharedKinds::new(alloc, kinds)
}

// The types with another one at an index.
fn with_kind(
    alloc: Global,
    locals: &[Kind],
    index: usize,
    kind: Kind,
) -> Result<Vec<Kind>, AllocError>
    requires { index < 2 ^ 8 }
    ensures kinds { IfOk result (λ v. (i : ℕ) → slice_index_or v.items i kinds.Top
        ≡ (if i == index then kind else slice_index_or locals.now i kinds.Top)) }
    ensures sized { IfOk result (λ v. (n : ℕ) → length locals.now ≤ n → index < n
        → length v.items ≤ n) }
{
    let mut kinds = padded(alloc, locals, index)?;
    kinds[index] = kind;
    Ok(kinds)
}

// The types, and behind them `Top` as far as an index.
fn padded(alloc: Global, locals: &[Kind], index: usize) -> Result<Vec<Kind>, AllocError>
    requires { index < 2 ^ 8 }
    ensures kinds { IfOk result (λ v. (i : ℕ) → slice_index_or v.items i kinds.Top
        ≡ slice_index_or locals.now i kinds.Top) }
    ensures room { IfOk result (λ v. index < length v.items) }
    ensures sized { IfOk result (λ v. (n : ℕ) → length locals.now ≤ n → index < n
        → length v.items ≤ n) }
{
    let mut kinds = Vec::from_slice(alloc, locals)?;
    while kinds.len() <= index {
        kinds.push(Kind::Top)?;
    }
    Ok(kinds)
}

// The type of a local variable.
fn local_at(locals: &[Kind], index: usize) -> Kind
    ensures { result ≡ slice_index_or locals.now index kinds.Top }
{
    match locals.get(index) {
        Some(kind) => *kind,
        None => Kind::Top,
    }
}

/// Whether a local variable is an int.
pub fn increments(locals: &[Kind], index: usize) -> bool
    ensures { result ≡ typing.same_kind (slice_index_or locals.now index kinds.Top) kinds.Int }
{
    matches!(local_at(locals, index), Kind::Int)
}
