//! Which code is directly after which.
ghost use Rattle.std.specs.Prelude.{◌≡◌, ◌+◌, ◌*◌, ◌^◌, ◌<◌, ◌≤◌, length};
ghost use Rattle.emit_spans.specs.Pieces as pieces;
ghost use Rattle.emit_spans.specs.Pieces.{flagged};
ghost use Rattle.emit_spans.specs.Neighbours as neighbours;

use crate::pieces::begins;
use crate::span_words::SpanWords;

/// The address of the next piece after a word.
pub fn next_piece(leads: &[bool], span: SpanWords, k: u32) -> Option<u32>
    requires within { (k < span.end) × (span.end ≤ length leads.now) }
    requires below_end { span.start + 4 * span.end < 2 ^ 32 }
    ensures { result ≡ neighbours.next_such (pieces.begins (flagged leads.now) span) span k }
{
    for next in k + 1..span.end {
        if begins(leads, span, next) {
            return Some(span.address(next));
        }
    }
    None
}

/// The address of the next word after a word with which no piece begins.
pub fn next_inner(leads: &[bool], span: SpanWords, k: u32) -> Option<u32>
    requires within { (k < span.end) × (span.end ≤ length leads.now) }
    requires below_end { span.start + 4 * span.end < 2 ^ 32 }
    ensures { result ≡ neighbours.next_such (neighbours.is_inner (flagged leads.now) span) span k }
{
    for word in k + 1..span.end {
        if is_inner(leads, span, word) {
            return Some(span.address(word));
        }
    }
    None
}

fn is_inner(leads: &[bool], span: SpanWords, k: u32) -> bool
    requires { k < length leads.now }
    ensures { result ≡ neighbours.is_inner (flagged leads.now) span k }
{
    !begins(leads, span, k)
}
