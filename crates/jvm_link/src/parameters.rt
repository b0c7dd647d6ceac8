//! The types of parameters by the slots of descriptors: a descriptor is read once, however many methods have it.
ghost use Rattle.std.specs.Prelude.{◌≡◌, IfOk, map};
ghost use Rattle.jvm_link.specs.Parameters.{entry_parameters, parameters_at};

use crate::kinds::parameters_of;
use class_names::NoMemory;
use constant_pool::Entry;
use jvm_definition::{Kind, Sequence};
use std::alloc::Global;

/// For each slot of a pool the types of the parameters that its text names as a descriptor.
pub fn slot_parameters(alloc: Global, pool: &[Entry]) -> Result<Vec<Sequence<Kind>>, NoMemory>
    ensures { IfOk result (λ parameters. parameters.items ≡ map entry_parameters pool.now) }
{
    let mut parameters = Vec::new(alloc);
    for entry in pool {
        let kinds = entry_parameters(alloc, entry)?;
        parameters.push(Sequence::new(kinds))?;
    }
    Ok(parameters)
}

fn entry_parameters(alloc: Global, entry: &Entry) -> Result<Vec<Kind>, NoMemory>
    ensures { IfOk result (λ kinds. kinds.items ≡ entry_parameters entry.now) }
{
    match entry {
        Entry::Utf8(text) => parameters_of(alloc, text.as_slice()),
        _ => Ok(Vec::new(alloc)),
    }
}

/// The types of the parameters of the descriptor in a slot, which is counted from 1.
pub fn parameters_at(
    alloc: Global,
    parameters: &[Sequence<Kind>],
    slot: u16,
) -> Result<Vec<Kind>, NoMemory>
    ensures { IfOk result (λ kinds. kinds.items ≡ parameters_at parameters.now slot) }
{
    if slot == 0 {
        return Ok(Vec::new(alloc));
    }
    match parameters.get(slot as usize - 1) {
        Some(kinds) => Vec::from_slice(alloc, kinds.as_slice()),
        None => Ok(Vec::new(alloc)),
    }
}
