//! Pools that grow.
ghost use Rattle.std.specs.Prelude.{◌≡◌, ◌<◌, ◌≤◌, length, IfOk, OnOk, MatchOption, Ok, true, false};
ghost use Rattle.stackmap_pool.specs.Longer as longer;

use crate::copies::copies_of;
use crate::slots::{class_slot, text_slot};
use class_format::STACK_MAP_TABLE;
use constant_pool::Entry;
use jvm_definition::Sequence;
use stackmap_table::{INTS, PAGES, STRING};
use std::alloc::{AllocError, Global};

/// The greatest number of slots of a pool.
const SLOTS: usize = 65_534;

/// The pool with the entries that tables of frames name, each at the end where it is missing; None exactly if it has more slots
/// than a pool can have, which are 65,534.
pub fn framed_pool(alloc: Global, pool: &[Entry]) -> Result<Option<Vec<Entry>>, AllocError>
    ensures { IfOk result (λ o. MatchOption o (65534 < length (longer.framed_pool pool.now))
        (λ v. (v.items ≡ longer.framed_pool pool.now) × (length v.items ≤ 65534))) }
{
    let mut longer = copies_of(alloc, pool)?;
    push_text(alloc, &mut longer, &STACK_MAP_TABLE)?;
    if !push_class(alloc, &mut longer, &INTS)? {
        return Ok(None);
    }
    if !push_class(alloc, &mut longer, &PAGES)? {
        return Ok(None);
    }
    if !push_class(alloc, &mut longer, &STRING)? {
        return Ok(None);
    }
    Ok(Some(longer))
}

// Puts a class with its name at the end, where it is missing; false where there are too many slots then.
fn push_class(alloc: Global, pool: &mut Vec<Entry>, name: &[u16]) -> Result<bool, AllocError>
    ensures few { result ≡ Ok true → (pool.new.items ≡ longer.with_class_entry name.now pool.old.items)
        × (length pool.new.items ≤ 65534) }
    ensures many { result ≡ Ok false → 65534 < length (longer.with_class_entry name.now pool.old.items) }
{
    if pool.len() > SLOTS {
        return Ok(false);
    }
    push_text(alloc, pool, name)?;
    push_class_of(pool, name)?;
    Ok(pool.len() <= SLOTS)
}

fn push_class_of(pool: &mut Vec<Entry>, name: &[u16]) -> Result<(), AllocError>
    requires { length pool.old.items ≤ 65535 }
    ensures { OnOk result (pool.new.items ≡ longer.with_class_of name.now pool.old.items) }
{
    if class_slot(pool, name).is_some() {
        return Ok(());
    }
    let slot = match text_slot(pool, name) {
        Some(slot) => slot as u16,
        None => 0,
    };
    Ok(pool.push(Entry::ClassName(slot))?)
}

fn push_text(alloc: Global, pool: &mut Vec<Entry>, text: &[u16]) -> Result<(), AllocError>
    ensures { OnOk result (pool.new.items ≡ longer.with_text text.now pool.old.items) }
{
    if let Some(_slot) = text_slot(pool, text) {
        return Ok(());
    }
    let text = Vec::from_slice(alloc, text)?;
    Ok(pool.push(Entry::Utf8(Sequence::new(text)))?)
}
