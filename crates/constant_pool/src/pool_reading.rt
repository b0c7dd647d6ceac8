//! Pools from bytes.
ghost use Rattle.std.specs.Prelude.{◌≡◌, ◌+◌, ℕ, List, drop, None, IfOk, OnOk, IfErr, length, option_map};
ghost use Rattle.class_format.specs.Gives.{Gives};
ghost use Rattle.class_definition.specs.Format.{checked};
ghost use Rattle.class_definition.specs.PoolEntries as format;
ghost use Rattle.class_definition.specs.PoolChecks as checks;
ghost use Rattle.constant_pool.specs.Answer.{missed_by, IsAnswer, pool_fault, refusal_of};
ghost use Rattle.class_definition.specs.Spelling.{Begins};
ghost use Rattle.class_definition.specs.declared.entry.Entry.{Entry};

use crate::entry_check::entry_fault;
use crate::entry_reading::slot_of;
use crate::error::ReadError;
use crate::slots::Slots;
use crate::text::text_size;
use class_definition::Entry;
use class_format::{ClassFault, Failure, Miss, fault_of, half_of, missed};
use std::alloc::Global;

/// The pool at the front, and what follows it.
#[tactic(auto, unfolding(class_definition::specs::PoolChecks::pool))]
pub fn entries_of(alloc: Global, bytes: &[u8]) -> Result<(Slots, &[u8]), Failure>
    ensures { Gives (λ x. (x.0, x.1.now)) result (checks.pool.read bytes.now) }
{
    let (count, rest) = half_of(ClassFault::CUT, bytes)?;
    if count == 0 {
        return Err(missed(ClassFault::INDEX, bytes));
    }
    sound_slots_of(alloc, count - 1, rest)
}

fn sound_slots_of(alloc: Global, count: u16, bytes: &[u8]) -> Result<(Slots, &[u8]), Failure>
    ensures { Gives (λ x. (x.0, x.1.now)) result
        ((checked (λ entries. checks.pool_entries_fault entries entries 0) (format.slots count)).read
        bytes.now) }
{
    let (entries, rest) = slots_of(alloc, count, bytes)?;
    let slots = Slots::new(alloc, entries)?;
    if let Some(miss) = entries_miss(&slots, bytes.len()) {
        return Err(Failure::Missed(miss));
    }
    Ok((slots, rest))
}

fn slots_of(alloc: Global, count: u16, bytes: &[u8]) -> Result<(Vec<Entry>, &[u8]), Failure>
    ensures { Gives (λ x. (x.0.items, x.1.now)) result ((format.slots count).read bytes.now) }
{
    let mut entries = Vec::new(alloc);
    let mut rest = bytes;
    let mut after_long = false;
    let mut to_come = count;
    while to_come > 0 {
        to_come -= 1;
        let (entry, others) = slot_of(alloc, after_long, to_come, rest)?;
        after_long = is_long(&entry);
        entries.push(entry)?;
        rest = others;
    }
    Ok((entries, rest))
}

pub fn is_long(entry: &Entry) -> bool
    ensures { result ≡ format.is_long_entry entry.now }
{
    matches!(entry, Entry::Long(_))
}

// The first entry at fault, where so many bytes are left at the first one's tag.
fn entries_miss(pool: &Slots, size: usize) -> Option<Miss>
    ensures { result ≡ missed_by size (checks.pool_entries_fault pool.now pool.now 0) }
{
    let mut left = size;
    let mut rest = pool.as_slice();
    while let Some((entry, others)) = rest.split_first() {
        if let Some(kind) = entry_fault(pool, entry) {
            return Some(Miss { kind, left });
        }
        left = left.saturating_sub(slot_size(entry));
        rest = others;
    }
    None
}

/// The number of bytes of an entry.
pub fn slot_size(entry: &Entry) -> usize
    ensures { result ≡ checks.slot_size entry.now }
{
    match entry {
        Entry::Utf8(text) => 3 + text_size(text.as_slice()),
        Entry::Integer(_) | Entry::FieldRef(_, _) | Entry::MethodRef(_, _) | Entry::NameAnd(_, _) =>
            5,
        Entry::Long(_) => 9,
        Entry::LongRest => 0,
        Entry::ClassName(_) | Entry::Text(_) => 3,
    }
}

/// The pool whose count is at a place in some bytes, and the place after it.
///
/// # Errors
///
/// Refused, exactly with the first field at fault. NoMemory.
pub fn read_pool(alloc: Global, b: &[u8], at: usize) -> Result<(Vec<Entry>, usize), ReadError>
    ensures refused { IfErr result (IsAnswer (pool_fault b.now at)) }
    ensures accepted { OnOk result (pool_fault b.now at ≡ None) }
    ensures spelled { IfOk result (λ x.
        Begins checks.pool (drop at b.now) x.0.items (drop x.1 b.now)) }
    ensures place { IfOk result (λ x. x.1 ≡ at + length (checks.pool.spell x.0.items)) }
    ensures found { (entries : List Entry) (rest : List ℕ)
        → Begins checks.pool (drop at b.now) entries rest → (pool_fault b.now at ≡ None)
        × IfOk result (λ x. x.0.items ≡ entries) }
{
    let bytes = from_place(b, at);
    match entries_of(alloc, bytes) {
        Ok((slots, rest)) => Ok((slots.into_entries(), at + (bytes.len() - rest.len()))),
        Err(failure) => Err(refusal(at, bytes.len(), failure)),
    }
}

// The bytes from a place on.
fn from_place(b: &[u8], at: usize) -> &[u8]
    ensures { result.now ≡ drop at b.now }
{
    match b.get(at..) {
        Some(bytes) => bytes,
        None => &[],
    }
}

fn refusal(at: usize, size: usize, failure: Failure) -> ReadError
    ensures { result ≡ refusal_of at size failure }
{
    match failure {
        Failure::Missed(miss) => ReadError::Refused(fault_of(at, size, miss)),
        Failure::NoMemory => ReadError::NoMemory,
    }
}
