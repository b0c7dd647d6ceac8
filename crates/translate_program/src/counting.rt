//! The classes of code, counted before they are made.
ghost use Rattle.std.specs.Prelude.{◌≡◌, ℕ, ◌+◌, ◌≤◌, ◌<◌, ◌^◌, ◌++◌, List, Option, IfOk, OnOk, length};
ghost use Rattle.method_splitter.specs.Shares.{share_count};
ghost use Rattle.translate_program.specs.Parts.{IsLow};
ghost use Rattle.translate_program.specs.Places.{Place, class_words, places_in};
ghost use Rattle.translate_program.specs.Ranges.{AreRangesOf, IsRangeOf, range_of};
ghost use Rattle.translate_program.specs.Counting.{AreCountsOf, CountsClass, CountsPlaces, HasFewMethods};

use crate::NoMemory;
use crate::parts::{part_at, part_count};
use crate::ranges::Ranges;
use crate::spans::spans_of;
use elf_image_parts::RangeCode;
use emit_layout::METHODS;
use nv_values::MethodBytes;
use std::alloc::Global;
use translate_classes::Part;

/// How many classes of code a program has so far, and how many methods with those of the main class.
#[derive(Clone, Copy, Debug)]
pub struct CodeCounts {
    pub classes: usize,
    pub methods: u32,
}

/// How many classes of code there are of a program's ranges, and how many methods they and the main class have. None of them is made.
///
/// # Errors
/// Out of memory for the spans of a class.
pub fn code_counts(
    alloc: Global,
    ranges: &Ranges,
    method_bytes: MethodBytes,
    metered: bool,
) -> Result<CodeCounts, NoMemory>
    requires { AreRangesOf ranges.now.image.value ranges.now.items.items }
    ensures counts { IfOk result
        (AreCountsOf metered ranges.now.image.value method_bytes) }
    ensures few { IfOk result (λ counts. counts.classes ≤ 235) }
    ensures methods { IfOk result (λ counts. counts.methods < 2 ^ 31) }
{
    let mut counts = CodeCounts {
        classes: 0,
        methods: METHODS,
    };
    let items = ranges.items.as_slice();
    for range in items {
        count_range(alloc, &mut counts, range, method_bytes, metered)?;
    }
    Ok(counts)
}

// The classes of a range.
fn count_range(
    alloc: Global,
    counts: &mut CodeCounts,
    range: &RangeCode,
    method_bytes: MethodBytes,
    metered: bool,
) -> Result<(), NoMemory>
    requires low { IsLow range.now (length range.now.units) }
    requires classes { counts.old.classes + share_count class_words (length range.now.units)
        ≤ 235 }
    requires few { HasFewMethods counts.old }
    ensures few { OnOk result (HasFewMethods counts.new) }
    ensures places { OnOk result ((code : ℕ → Option ℕ) (places : List Place)
        → IsRangeOf code range.now
        → CountsPlaces metered code method_bytes places counts.old
        → CountsPlaces metered code method_bytes (places
        ++ places_in (range_of range.now)) counts.new) }
{
    let words = range.units.len() as u32;
    for k in 0..part_count(words) {
        let part = part_at(metered, range, words, k);
        count_class(alloc, counts, &part, method_bytes)?;
    }
    Ok(())
}

// The class of a part of the code.
fn count_class(
    alloc: Global,
    counts: &mut CodeCounts,
    part: &Part,
    method_bytes: MethodBytes,
) -> Result<(), NoMemory>
    requires some { 1 ≤ part.now.words }
    requires few_words { part.now.words ≤ 6144 }
    requires classes { counts.old.classes < 235 }
    requires few { HasFewMethods counts.old }
    ensures counted { OnOk result (CountsClass method_bytes part.now counts.old counts.new) }
    ensures few { OnOk result (HasFewMethods counts.new) }
{
    let spans = spans_of(alloc, part, method_bytes)?;
    counts.classes += 1;
    counts.methods += spans.as_slice().len() as u32 + 1;
    Ok(())
}
