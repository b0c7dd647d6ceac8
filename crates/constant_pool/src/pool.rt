ghost use Rattle.std.specs.Prelude.{◌≡◌, ◌⊎◌, ℕ, ◌+◌, ◌-◌, ◌<◌, ◌≤◌, ◌↔◌, List, [], ◌++◌, length, false, Err, IfOk, OnOk, IsOk, OnErr, IfSome, IfNone, Ok, ◌∷◌};
ghost use Rattle.constant_pool.specs.Slots.{IsAt, IsMissing, is_rest, slots_of_entry};
ghost use Rattle.constant_pool.specs.declared.error.PoolError.TheVariants.{Full};

use crate::error::{NoMemory, PoolError};
use crate::pool_reading::is_long;
use class_definition::Entry;
use indexmap::IndexMap;
use std::alloc::Global;
use std::marker::Model;

/// The greatest number of slots: their number and 1 has two bytes.
const SLOTS: u32 = 65_534;

/// A constant pool that is made entry by entry (JVM Specification, 4.4). No entry is in it twice.
///
/// A contract sees it as the list of its slots, of which the first one is slot 1. A Long takes two. It keeps the allocator.
#[derive(Drop)]
pub struct Pool {
    entries: IndexMap<Entry, u16>,
    next: u16,
}

impl Model for Pool {
    ghost use Rattle.std.specs.Prelude.{List};
    ghost use Rattle.class_definition.specs.declared.entry.Entry.{Entry};

    ghost Value = { List Entry };

    ghost use Rattle.constant_pool.specs.Slots.{slots_of_map, IsKeptPool};

    ghost view = { λ p. slots_of_map p.entries.entries };

    ghost invariant = { λ p. IsKeptPool p.entries.entries p.next };
}

impl Pool {
    /// A pool without entries. It takes no memory.
    pub fn new(alloc: Global) -> Pool
        ensures { result ≡ [] }
    {
        Pool {
            entries: IndexMap::new(alloc),
            next: 1,
        }
    }

    /// The number of slots that are left, of 65,534. It takes no memory.
    pub fn left(&self) -> u32
        ensures value { result ≡ 65534 - length self.now }
        ensures few { length self.now ≤ 65534 }
    {
        SLOTS - (u32::from(self.next) - 1)
    }

    /// The slot of an equal entry; None exactly if there is none.
    fn slot_of(&self, e: &Entry) -> Option<u16>
        requires { is_rest e.now ≡ false }
        ensures found { IfSome result (λ slot. IsAt self.now slot e.now) }
        ensures missing { IfNone result (IsMissing self.now e.now) }
    {
        self.entries.get(e).copied()
    }

    /// The slot of an entry: that of an equal one where there is one, and then nothing changes and it takes no memory; otherwise the
    /// first free one, in which the entry now is.
    ///
    /// # Errors
    ///
    /// Full, exactly if no equal entry is there and fewer slots are left than it takes, two for a Long and one for any
    /// other. NoMemory. After either the pool is as before.
    pub fn add(&mut self, e: Entry) -> Result<u16, PoolError>
        requires { is_rest e ≡ false }
        ensures there { IfOk result (λ slot. IsAt self.new slot e) }
        ensures present { (slot : ℕ) → IsAt self.old slot e → IsOk result × (self.new ≡ self.old) }
        ensures added { IsMissing self.old e
            → IfOk result (λ slot. (slot ≡ 1 + length self.old)
            × (self.new ≡ self.old ++ slots_of_entry e)) }
        ensures grown { OnOk result ((self.new ≡ self.old)
            ⊎ (self.new ≡ self.old ++ slots_of_entry e)) }
        ensures full { (result ≡ Err Full)
            ↔ (IsMissing self.old e × (65534 < length self.old + length (slots_of_entry e))) }
        ensures err { OnErr result (self.new ≡ self.old) }
    {
        if let Some(slot) = self.slot_of(&e) {
            return Ok(slot);
        }
        let size = slots_taken(&e);
        if self.left() < u32::from(size) {
            return Err(PoolError::Full);
        }
        let slot = self.next;
        self.entries.insert(e, slot)?;
        self.next += size;
        Ok(slot)
    }

    /// The entries, one for each slot in order.
    pub fn entries(self, alloc: Global) -> Result<Vec<Entry>, NoMemory>
        ensures { IfOk result (λ entries. entries.items ≡ self) }
    {
        let mut entries = Vec::new(alloc);
        for entry in self.entries.into_keys() {
            push_slots(&mut entries, entry)?;
        }
        Ok(entries)
    }
}

fn push_slots(entries: &mut Vec<Entry>, entry: Entry) -> Result<(), NoMemory>
    ensures { OnOk result (entries.new.items ≡ entries.old.items ++ slots_of_entry entry) }
{
    let long = is_long(&entry);
    entries.push(entry)?;
    if long {
        entries.push(Entry::LongRest)?;
    }
    Ok(())
}

// How many slots an entry takes.
fn slots_taken(e: &Entry) -> u16
    ensures { result ≡ length (slots_of_entry e.now) }
{
    if is_long(e) { 2 } else { 1 }
}
