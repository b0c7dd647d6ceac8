//! Where the code of each word is.
ghost use Rattle.std.specs.Prelude.{◌≡◌, ◌+◌, ◌*◌, ◌^◌, ◌≤◌, ◌<◌, IfOk, length, map};
ghost use Rattle.emit_spans.specs.Pieces as pieces;
ghost use Rattle.emit_spans.specs.Pieces.{all_words, flagged};
ghost use Rattle.emit_spans.specs.Laying as laying;
ghost use Rattle.emit_spans.specs.Bodies.{part_offset};

use crate::NoMemory;
use crate::pieces::begins;
use crate::span_words::SpanWords;
use delay_slots::RangeUnits;
use std::alloc::Global;

/// The offset of the code of each word of a span, by the offsets in their parts and the offset after the warm code.
///
/// # Errors
/// Out of memory for the offsets.
pub fn targets_of(
    alloc: Global,
    units: &RangeUnits,
    leads: &[bool],
    span: SpanWords,
    offsets: &[u32],
    cold_base: u32,
) -> Result<Vec<u32>, NoMemory>
    requires same_len { length leads.now ≡ length units.now }
    requires within { (span.first ≤ span.end) × (span.end ≤ length units.now) }
    requires offsets { offsets.now
        ≡ map (part_offset units.now (flagged leads.now) span) (all_words span) }
    requires cold_base { cold_base ≡ laying.cold_base units.now (flagged leads.now) span }
    requires small { laying.return_offset units.now (flagged leads.now) span < 2 ^ 32 }
    ensures { IfOk result (λ targets. targets.items
        ≡ laying.targets_of units.now (flagged leads.now) span) }
{
    let mut targets = Vec::with_capacity(alloc, (span.end - span.first) as usize)?;
    for k in span.first..span.end {
        targets.push(target_of(units, leads, span, offsets, cold_base, k))?;
    }
    Ok(targets)
}

// The offset of the code of a word.
fn target_of(
    units: &RangeUnits,
    leads: &[bool],
    span: SpanWords,
    offsets: &[u32],
    cold_base: u32,
    k: u32,
) -> u32
    requires same_len { length leads.now ≡ length units.now }
    requires begins_within { (span.first ≤ k) × (k < span.end) }
    requires ends_within { span.end ≤ length units.now }
    requires offsets { offsets.now
        ≡ map (part_offset units.now (flagged leads.now) span) (all_words span) }
    requires cold_base { cold_base ≡ laying.cold_base units.now (flagged leads.now) span }
    requires small { laying.return_offset units.now (flagged leads.now) span < 2 ^ 32 }
    ensures { result ≡ laying.entry_at units.now (flagged leads.now) span k }
{
    let offset = offsets[(k - span.first) as usize];
    if begins(leads, span, k) {
        offset
    } else {
        cold_base + offset
    }
}
