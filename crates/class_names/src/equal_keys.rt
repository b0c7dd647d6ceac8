//! Whether two keys are the same.
ghost use Rattle.std.specs.Prelude.{◌≡◌, IfOk};
ghost use Rattle.class_names.specs.Keys.{has_equal_keys};

use crate::key::Key;
use crate::link_error::NoMemory;
use indexmap::IndexSet;
use std::alloc::Global;

/// Whether two of these keys are the same.
pub fn has_equal(alloc: Global, keys: &[Key]) -> Result<bool, NoMemory>
    ensures { IfOk result (λ equal. equal ≡ has_equal_keys keys.now) }
{
    let mut seen = IndexSet::new(alloc);
    let mut rest = keys;
    while let Some((key, before)) = rest.split_last() {
        if !seen.insert(*key)? {
            return Ok(true);
        }
        rest = before;
    }
    Ok(false)
}
