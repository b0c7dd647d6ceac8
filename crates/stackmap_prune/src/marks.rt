//! Marks at offsets.
ghost use Rattle.std.specs.Prelude.{◌≡◌, ◌<◌, ℕ, IfOk, false, true, length, slice_index_or, slice_set};
ghost use Rattle.type_verifier.specs.Typings.{RisesFrom};
ghost use Rattle.stackmap_prune.specs.Code as code;
ghost use Rattle.stackmap_prune.specs.Linked as linked;
ghost use Rattle.stackmap_prune.specs.Listing as listing;

use jvm_type_inference::Frame;
use std::alloc::{AllocError, Global};

/// Marks an offset, if it is within the marks.
pub fn mark(marks: &mut Vec<bool>, at: usize)
    ensures { marks.new.items ≡ slice_set marks.old.items at true }
{
    if at < marks.len() {
        marks[at] = true;
    }
}

/// Whether an offset is marked.
pub fn is_marked(marks: &[bool], at: usize) -> bool
    ensures { result ≡ linked.is_marked marks.now at }
{
    match marks.get(at) {
        Some(mark) => *mark,
        None => false,
    }
}

/// The offsets for which frames are listed, marked.
pub fn listed_marks(alloc: Global, listed: &[(u32, Frame)]) -> Result<Vec<bool>, AllocError>
    requires { RisesFrom 0 listed.now }
    ensures { IfOk result (λ v. (at : ℕ) → linked.is_marked v.items at
        ≡ code.is_listed listed.now at) }
{
    let mut marks = vec![in alloc; false; end_of(listed)]?;
    let mut rest = listed;
    while let Some((first, others)) = rest.split_first() {
        mark(&mut marks, first.0 as usize);
        rest = others;
    }
    Ok(marks)
}

// The offset behind the last one.
fn end_of(listed: &[(u32, Frame)]) -> usize
    requires { RisesFrom 0 listed.now }
    ensures { listing.AreListedBefore result listed.now }
{
    match listed.split_last() {
        None => 0,
        Some((last, _others)) => last.0 as usize + 1,
    }
}
