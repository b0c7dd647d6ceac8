//! The operands of a frame, which change in their place.
ghost use Rattle.std.specs.Prelude.{◌≡◌, ◌+◌, ◌<◌, ◌^◌, ◌∷◌, [], IfOk, MatchOption, OnOk, drop, if◌then◌else◌, length};
ghost use Rattle.jvm_definition.specs.Typing.{is_long_kind, no_top, slots_of, stack_below};
ghost use Rattle.jvm_type_inference.specs.Joins.{is_top};
ghost use Rattle.jvm_type_inference.specs.Kinds.{kinds_of, operands_of, put_above};
ghost use Rattle.jvm_type_inference.specs.Working as working;

use crate::few_kinds::{FewKinds, ROOM};
use crate::kind_cursor::KindCursor;
use crate::kinds::{is_below, is_long, is_stack_below, is_top};
use crate::shared_kinds::SharedKinds;
use jvm_definition::Kind;
use std::alloc::{AllocError, Global};
use std::marker::Model;

/// Operands, which contracts see as the list of them, top first. The uppermost ones cost no memory, and the others belong to all
/// frames that have them in common.
#[derive(Drop)]
pub struct KindList {
    /// The uppermost ones, lowest first.
    above: FewKinds,
    /// Those below, top first.
    below: Option<SharedKinds>,
    /// How many of those below were taken.
    taken: usize,
    /// The words that the operands take, where a long takes two (JVM Specification, 2.6.2).
    words: usize,
    /// How many of them have no type.
    tops: usize,
}

impl Model for KindList {
    ghost use Rattle.std.specs.Prelude.{List};
    ghost use Rattle.jvm_definition.specs.declared.kind.Kind.{Kind};
    ghost use Rattle.jvm_type_inference.specs.Kinds.{operands_of};
    ghost use Rattle.jvm_type_inference.specs.Working.{AreCounted};

    ghost Value = { List Kind };

    ghost view = { λ s. operands_of s.above s.below s.taken };

    ghost invariant = { λ s. AreCounted (operands_of s.above s.below s.taken) s.words s.tops };
}

impl KindList {
    #[inline(always)]
    pub fn new() -> KindList
        ensures { result ≡ [] }
    {
        KindList {
            above: FewKinds::new(),
            below: None,
            taken: 0,
            words: 0,
            tops: 0,
        }
    }

    /// Operands that lie elsewhere, top first.
    pub fn from_slice(alloc: Global, kinds: &[Kind]) -> Result<KindList, AllocError>
        ensures { IfOk result (λ k. k ≡ kinds.now) }
    {
        if kinds.len() <= ROOM {
            KindList::from_few(alloc, kinds)
        } else {
            KindList::from_vec(alloc, Vec::from_slice(alloc, kinds)?)
        }
    }

    fn from_few(alloc: Global, kinds: &[Kind]) -> Result<KindList, AllocError>
        ensures { IfOk result (λ k. k ≡ kinds.now) }
    {
        let mut list = KindList::new();
        let mut rest = kinds;
        while let Some((kind, others)) = rest.split_last() {
            list.push(alloc, *kind)?;
            rest = others;
        }
        Ok(list)
    }

    /// Operands, top first.
    pub fn from_vec(alloc: Global, kinds: Vec<Kind>) -> Result<KindList, AllocError>
        ensures { IfOk result (λ k. k ≡ kinds.items) }
    {
        let words = all_words(kinds.as_slice())?;
        let tops = all_tops(kinds.as_slice())?;
        let below = SharedKinds::new(alloc, kinds)?;
        Ok(KindList {
            above: FewKinds::new(),
            below: Some(below),
            taken: 0,
            words,
            tops,
        })
    }

    /// The same operands for one more frame. It takes no memory.
    #[inline(always)]
    pub fn copied(&self) -> Result<KindList, AllocError>
        ensures { IfOk result (λ k. k ≡ self.now) }
    {
        let below = match &self.below {
            Some(kinds) => Some(kinds.shared()?),
            None => None,
        };
        Ok(KindList {
            above: self.above.copied(),
            below,
            taken: self.taken,
            words: self.words,
            tops: self.tops,
        })
    }

    /// The operands, top first.
    pub fn to_vec(&self, alloc: Global) -> Result<Vec<Kind>, AllocError>
        ensures { IfOk result (λ v. v.items ≡ self.now) }
    {
        above_others(
            alloc,
            self.above.as_slice(),
            rest_of(&self.below, self.taken),
        )
    }

    /// Takes the uppermost operand, where there is one.
    #[inline(always)]
    pub fn pop(&mut self) -> Option<Kind>
        ensures { MatchOption result ((self.old ≡ []) × (self.new ≡ [])) (λ k. self.old ≡ k ∷ self.new) }
    {
        let kind = taken_from(&mut self.above, &self.below, &mut self.taken)?;
        self.words -= size_of(kind);
        self.tops -= tops_of(kind);
        Some(kind)
    }

    /// Puts an operand above the others.
    #[inline(always)]
    pub fn push(&mut self, alloc: Global, kind: Kind) -> Result<(), AllocError>
        ensures { OnOk result (self.new ≡ kind ∷ self.old) }
    {
        let words = more(self.words, size_of(kind))?;
        let tops = more(self.tops, tops_of(kind))?;
        make_room(alloc, &mut self.above, &mut self.below, &mut self.taken)?;
        self.above.push(kind);
        self.words = words;
        self.tops = tops;
        Ok(())
    }

    /// The words that the operands take.
    #[inline(always)]
    pub fn words(&self) -> usize
        ensures { result ≡ slots_of self.now }
    {
        self.words
    }

    /// Whether each operand has a type.
    #[inline(always)]
    #[tactic(auto, using(crate::proofs::OperandLaws::no_tops))]
    pub fn are_typed(&self) -> bool
        ensures { result ≡ no_top self.now }
    {
        self.tops == 0
    }

    /// Whether as many operands are below others.
    pub fn is_below(&self, other: &KindList) -> bool
        ensures { result ≡ stack_below self.now other.now }
    {
        are_each_below(
            self.above.as_slice(),
            rest_of(&self.below, self.taken),
            other.above.as_slice(),
            rest_of(&other.below, other.taken),
        )
    }
}

// A number and some more; no memory has room for as many operands as would not be counted.
#[inline(always)]
fn more(number: usize, added: usize) -> Result<usize, AllocError>
    ensures { IfOk result (λ n. n ≡ number + added) }
{
    match number.checked_add(added) {
        Some(sum) => Ok(sum),
        None => Err(AllocError),
    }
}

#[inline(always)]
fn size_of(kind: Kind) -> usize
    ensures { result ≡ (if is_long_kind kind then 2 else 1) }
{
    if is_long(kind) { 2 } else { 1 }
}

#[inline(always)]
fn tops_of(kind: Kind) -> usize
    ensures { result ≡ (if is_top kind then 1 else 0) }
{
    if is_top(kind) { 1 } else { 0 }
}

// The words that operands take.
fn all_words(kinds: &[Kind]) -> Result<usize, AllocError>
    ensures { IfOk result (λ n. n ≡ slots_of kinds.now) }
{
    let mut words = 0;
    let mut rest = kinds;
    while let Some((kind, others)) = rest.split_first() {
        words = more(words, size_of(*kind))?;
        rest = others;
    }
    Ok(words)
}

// How many operands have no type.
fn all_tops(kinds: &[Kind]) -> Result<usize, AllocError>
    ensures { IfOk result (λ n. n ≡ working.tops_of kinds.now) }
{
    let mut tops = 0;
    let mut rest = kinds;
    while let Some((kind, others)) = rest.split_first() {
        tops = more(tops, tops_of(*kind))?;
        rest = others;
    }
    Ok(tops)
}

// Those that are left below.
#[inline(always)]
fn rest_of(below: &Option<SharedKinds>, taken: usize) -> &[Kind]
    ensures rest { result.now ≡ drop taken (kinds_of below.now) }
    ensures near { 0 < length result.now → taken + 1 < 2 ^ 64 }
{
    let Some(kinds) = below else {
        return &[];
    };
    let kinds = kinds.as_slice();
    if taken < kinds.len() {
        &kinds[taken..]
    } else {
        &[]
    }
}

// Takes the uppermost operand, where there is one.
#[inline(always)]
#[tactic(auto, using(crate::proofs::OperandLaws::drop_next))]
fn taken_from(above: &mut FewKinds, below: &Option<SharedKinds>, taken: &mut usize) -> Option<Kind>
    ensures { MatchOption result ((operands_of above.old below.now taken.old ≡ [])
        × (operands_of above.new below.now taken.new ≡ []))
        (λ k. operands_of above.old below.now taken.old
        ≡ k ∷ operands_of above.new below.now taken.new) }
{
    if let Some(kind) = above.pop() {
        return Some(kind);
    }
    let (kind, _others) = rest_of(below, *taken).split_first()?;
    *taken += 1;
    Some(*kind)
}

// Makes room above, where there is none.
#[inline(always)]
fn make_room(
    alloc: Global,
    above: &mut FewKinds,
    below: &mut Option<SharedKinds>,
    taken: &mut usize,
) -> Result<(), AllocError>
    ensures same { operands_of above.new below.new taken.new
        ≡ operands_of above.old below.old taken.old }
    ensures room { OnOk result (length above.new < 30) }
{
    if !above.has_room() {
        let kinds = above_others(alloc, above.as_slice(), rest_of(below, *taken))?;
        let kinds = SharedKinds::new(alloc, kinds)?;
        *below = Some(kinds);
        *taken = 0;
        *above = FewKinds::new();
    }
    Ok(())
}

// Some that are kept lowest first, above others.
fn above_others(alloc: Global, above: &[Kind], below: &[Kind]) -> Result<Vec<Kind>, AllocError>
    ensures { IfOk result (λ v. v.items ≡ put_above above.now below.now) }
{
    let mut kinds = Vec::new(alloc);
    let mut rest = above;
    while let Some((kind, others)) = rest.split_last() {
        kinds.push(*kind)?;
        rest = others;
    }
    kinds.extend_from_slice(below)?;
    Ok(kinds)
}

// Whether as many operands are below others.
fn are_each_below(
    above: &[Kind],
    below: &[Kind],
    other_above: &[Kind],
    other_below: &[Kind],
) -> bool
    ensures { result
        ≡ stack_below (put_above above.now below.now) (put_above other_above.now other_below.now) }
{
    let mut rest = KindCursor { above, below };
    let mut beside = KindCursor {
        above: other_above,
        below: other_below,
    };
    while !rest.is_below() || !beside.is_below() {
        let Some(kind) = rest.next() else {
            return beside.next().is_none();
        };
        let Some(other) = beside.next() else {
            return false;
        };
        if !is_below(kind, other) {
            return false;
        }
    }
    is_stack_below(rest.below, beside.below)
}
