ghost use Rattle.std.specs.Prelude.{◌≡◌, ◌<◌, ◌≤◌, ◌+◌, ℕ, All, IfOk, List, length, take};
ghost use Rattle.method_splitter.specs.Cuts.{Cuts, Fills, span_weight};
ghost use Rattle.method_splitter.specs.declared.span.Span.{Span};

use crate::span::Span;
use std::alloc::{AllocError, Global};

/// What a span costs besides its words, in bytes of code.
const SPAN_BYTES: u64 = 96;

/// What a word costs besides its weight, in bytes of code.
const WORD_BYTES: u64 = 4;

/// Divides words, given by their weights, into spans of at most `limit` bytes of code, in one pass.
///
/// A span costs 96 bytes, and for each word 4 and its weight. There are as few spans as there can be, and each but the last would
/// be above the limit with the next word.
///
/// # Errors
/// There was not enough memory.
pub fn cut(alloc: Global, weights: &[u32], limit: u32) -> Result<Vec<Span>, AllocError>
    requires few { length weights.now ≤ 12288 }
    requires each_fits { All (λ w. 100 + w ≤ limit) weights.now }
    ensures cuts { IfOk result (λ spans. Cuts 0 weights.now limit spans.items) }
    ensures fills { IfOk result (λ spans. Fills weights.now limit spans.items) }
    ensures least { IfOk result (λ spans. (others : List Span) → Cuts 0 weights.now limit others
        → length spans.items ≤ length others) }
{
    let mut spans = Vec::new(alloc);
    let mut first = 0;
    while first < weights.len() {
        let (_, rest) = weights.split_at(first);
        let words = fitting(rest, limit);
        spans.push(Span {
            first: first as u32,
            words: words as u32,
        })?;
        first += words;
    }
    Ok(spans)
}

/// How many words fit into one span, from the first on.
fn fitting(weights: &[u32], limit: u32) -> usize
    requires some { 0 < length weights.now }
    requires each_fits { All (λ w. 100 + w ≤ limit) weights.now }
    ensures some { 0 < result }
    ensures within { result ≤ length weights.now }
    ensures fits { span_weight (take result weights.now) ≤ limit }
    ensures full { result < length weights.now
        → limit < span_weight (take (result + 1) weights.now) }
{
    let mut bytes = SPAN_BYTES;
    let mut words = 0;
    while words < weights.len() {
        let more = bytes + WORD_BYTES + u64::from(weights[words]);
        if more > u64::from(limit) {
            return words;
        }
        bytes = more;
        words += 1;
    }
    words
}
