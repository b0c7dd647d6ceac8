//! Types and the order between them (JVM Specification, 4.10.1.2).
ghost use Rattle.std.specs.Prelude.{◌≡◌, ◌≤◌, true, IsTrue, ◌↔◌};
ghost use Rattle.jvm_definition.specs.Typing.{below, is_reference_kind, is_long_kind, is_array_kind, moves_kind, same_kind, slots_of, stack_below};
ghost use Rattle.jvm_type_inference.specs.Joins as joins;
ghost use Rattle.jvm_type_inference.specs.Kinds as codes;

use jvm_definition::{Kind, LocalKind};

/// A type is below itself and `Top`, and null below the types of references.
#[inline(always)]
pub fn is_below(kind: Kind, other: Kind) -> bool
    ensures { result ≡ below kind other }
{
    match kind {
        Kind::Top => matches!(other, Kind::Top),
        Kind::Int => matches!(other, Kind::Int | Kind::Top),
        Kind::Long => matches!(other, Kind::Long | Kind::Top),
        Kind::Null => !matches!(other, Kind::Int | Kind::Long),
        Kind::Ints => matches!(other, Kind::Ints | Kind::Top),
        Kind::Pages => matches!(other, Kind::Pages | Kind::Top),
        Kind::Text => matches!(other, Kind::Text | Kind::Top),
    }
}

/// Whether two types are the same.
pub fn is_same(kind: Kind, other: Kind) -> bool
    ensures { result ≡ same_kind kind other }
{
    match kind {
        Kind::Top => is_top(other),
        Kind::Int => matches!(other, Kind::Int),
        Kind::Long => is_long(other),
        Kind::Null => matches!(other, Kind::Null),
        Kind::Ints => matches!(other, Kind::Ints),
        Kind::Pages => matches!(other, Kind::Pages),
        Kind::Text => matches!(other, Kind::Text),
    }
}

/// The least type above two.
pub fn join(kind: Kind, other: Kind) -> Kind
    ensures { result ≡ joins.joined kind other }
{
    if is_below(kind, other) {
        other
    } else if is_below(other, kind) {
        kind
    } else {
        Kind::Top
    }
}

#[inline(always)]
pub fn is_top(kind: Kind) -> bool
    ensures { result ≡ joins.is_top kind }
{
    matches!(kind, Kind::Top)
}

#[inline(always)]
pub fn is_long(kind: Kind) -> bool
    ensures { result ≡ is_long_kind kind }
{
    matches!(kind, Kind::Long)
}

pub fn is_reference(kind: Kind) -> bool
    ensures { result ≡ is_reference_kind kind }
{
    matches!(kind, Kind::Null | Kind::Ints | Kind::Pages | Kind::Text)
}

pub fn is_array(kind: Kind) -> bool
    ensures { result ≡ is_array_kind kind }
{
    matches!(kind, Kind::Null | Kind::Ints | Kind::Pages)
}

/// Whether a load or store of a local variable moves values of a type.
pub fn is_moved(moved: LocalKind, kind: Kind) -> bool
    ensures { result ≡ moves_kind moved kind }
{
    match moved {
        LocalKind::Int => matches!(kind, Kind::Int),
        LocalKind::Reference => is_reference(kind),
    }
}

/// Whether operands have room, where a long is two (JVM Specification, 2.6.2).
#[inline(always)]
pub fn has_room(stack: &[Kind], most: u16) -> bool
    ensures { IsTrue result ↔ (slots_of stack.now ≤ most) }
{
    let mut rest = stack;
    let mut room = most;
    while let Some((kind, others)) = rest.split_first() {
        let size = if is_long(*kind) { 2 } else { 1 };
        if room < size {
            return false;
        }
        room -= size;
        rest = others;
    }
    true
}

#[inline(always)]
fn code_of(kind: Kind) -> u8
    ensures { result ≡ codes.code_of kind }
{
    kind as u8
}

#[inline(always)]
#[tactic(auto, using(crate::proofs::StillLaws::same_code))]
fn still_same(same: bool, kind: Kind, other: Kind) -> bool
    ensures before { result ≡ true → same ≡ true }
    ensures kinds { result ≡ true → kind ≡ other }
{
    same & (code_of(kind) == code_of(other))
}

// Whether types are the same. All of them are looked at, so that a processor can look at many at once.
fn are_same(kinds: &[Kind], others: &[Kind]) -> bool
    ensures { result ≡ true → kinds.now ≡ others.now }
{
    if kinds.len() != others.len() {
        return false;
    }
    let mut same = true;
    let mut rest = kinds;
    let mut beside = others;
    while let Some((kind, behind)) = rest.split_first() {
        let Some((other, more)) = beside.split_first() else {
            return false;
        };
        same = still_same(same, *kind, *other);
        rest = behind;
        beside = more;
    }
    same
}

/// Whether as many operands are below others.
#[tactic(auto, using(crate::proofs::StillLaws::same_stack))]
pub fn is_stack_below(stack: &[Kind], others: &[Kind]) -> bool
    ensures { result ≡ stack_below stack.now others.now }
{
    if are_same(stack, others) {
        return true;
    }
    is_each_below(stack, others)
}

fn is_each_below(stack: &[Kind], others: &[Kind]) -> bool
    ensures { result ≡ stack_below stack.now others.now }
{
    let mut rest = stack;
    let mut above = others;
    while let Some((kind, kinds)) = rest.split_first() {
        let Some((other, more)) = above.split_first() else {
            return false;
        };
        if !is_below(*kind, *other) {
            return false;
        }
        rest = kinds;
        above = more;
    }
    above.is_empty()
}

/// Whether local variables are below others.
#[tactic(auto, using(crate::proofs::StillLaws::same_locals_below))]
pub fn are_locals_below(locals: &[Kind], others: &[Kind]) -> bool
    ensures { result ≡ joins.locals_below locals.now others.now }
{
    if are_same(locals, others) {
        return true;
    }
    is_each_local_below(locals, others)
}

fn is_each_local_below(locals: &[Kind], others: &[Kind]) -> bool
    ensures { result ≡ joins.locals_below locals.now others.now }
{
    let mut rest = locals;
    let mut above = others;
    while let Some((other, more)) = above.split_first() {
        let (kind, kinds) = first_local(rest);
        if !is_below(kind, *other) {
            return false;
        }
        rest = kinds;
        above = more;
    }
    true
}

// The first local variable and the others.
fn first_local(locals: &[Kind]) -> (Kind, &[Kind])
    ensures first { result.0 ≡ joins.first_local locals.now }
    ensures others { result.1.now ≡ joins.other_locals locals.now }
{
    match locals.split_first() {
        Some((kind, others)) => (*kind, others),
        None => (Kind::Top, locals),
    }
}
