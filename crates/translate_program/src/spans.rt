//! The spans of a part of the code.
ghost use Rattle.std.specs.Prelude.{◌≡◌, ◌≤◌, ◌<◌, All, IfOk, length, sum_by};
ghost use Rattle.emit_steps.specs.Widths.{size};
ghost use Rattle.translate_classes.specs.Code.{code_of_span};
ghost use Rattle.translate_classes.specs.Parts.{IsSpan};
ghost use Rattle.translate_program.specs.Spans.{AreSpans, weight_at, weights_of};

use crate::NoMemory;
use emit_limits::size_laws::divided_words_keep_to_the_limit;
use emit_limits::weight_of;
use method_splitter::{Span, cut};
use nv_values::MethodBytes;
use std::alloc::Global;
use translate_classes::Part;

/// The spans of a part, of at most 6,144 words: as few as there can be with at most `method_bytes` bytes each, and each but the last would
/// have more with the next word. There are at most 879, and the code of each has at most 65,535 bytes.
///
/// # Errors
/// Out of memory for the spans.
pub fn spans_of(
    alloc: Global,
    part: &Part,
    method_bytes: MethodBytes,
) -> Result<Vec<Span>, NoMemory>
    requires some { 1 ≤ part.now.words }
    requires few { part.now.words ≤ 6144 }
    ensures value { IfOk result (λ spans. AreSpans part.now method_bytes spans.items) }
    ensures within { IfOk result (λ spans. All (IsSpan part.now.words) spans.items) }
    ensures some { IfOk result (λ spans. 1 ≤ length spans.items) }
    ensures few { IfOk result (λ spans. length spans.items ≤ 879) }
    ensures words { IfOk result (λ spans. sum_by (λ s. s.words) spans.items ≤ 6144) }
    ensures sizes { IfOk result (λ spans.
        All (λ s. size (code_of_span part.now s) ≤ 65535) spans.items) }
{
    divided_words_keep_to_the_limit();
    let weights = weights_of(alloc, part)?;
    let spans = cut(alloc, weights.as_slice(), method_bytes.get())?;
    Ok(spans)
}

// The weights of the words of a part.
fn weights_of(alloc: Global, part: &Part) -> Result<Vec<u32>, NoMemory>
    ensures value { IfOk result (λ weights. weights.items ≡ weights_of part.now part.now.words) }
    ensures count { IfOk result (λ weights. length weights.items ≡ part.now.words) }
    ensures bound { IfOk result (λ weights. All (λ w. w ≤ 540) weights.items) }
{
    let mut weights = Vec::new(alloc);
    for k in 0..part.words {
        weights.push(weight_at(part, k))?;
    }
    Ok(weights)
}

fn weight_at(part: &Part, k: u32) -> u32
    requires within { k < part.now.words }
    ensures value { result ≡ weight_at part.now k }
    ensures bound { result ≤ 540 }
{
    weight_of(part.metered, &part.units.at((part.first + k) as usize))
}
