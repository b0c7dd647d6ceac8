//! The pieces of a span.
ghost use Rattle.std.specs.Prelude.{◌≡◌, ◌+◌, ◌<◌, ◌≤◌, ◌==◌, ◌||◌, length};
ghost use Rattle.block_builder.specs.Blocks.{ends};
ghost use Rattle.emit_spans.specs.Pieces as pieces;
ghost use Rattle.emit_spans.specs.Pieces.{flagged};

use crate::span_words::SpanWords;
use block_builder::{Block, ends, words_from, words_of};
use delay_slots::RangeUnits;

/// Whether a piece begins with a word: it is the span's first word or a leader, and the span has no meter.
pub fn begins(leads: &[bool], span: SpanWords, k: u32) -> bool
    requires { k < length leads.now }
    ensures { result ≡ pieces.begins (flagged leads.now) span k }
{
    !span.metered && (k == span.first || leads[k as usize])
}

/// The piece that begins with a word of the span.
pub fn piece_at(units: &RangeUnits, leads: &[bool], span: SpanWords, k: u32) -> Block
    requires same_len { length leads.now ≡ length units.now }
    requires begins_within { k < span.end }
    requires ends_within { span.end ≤ length units.now }
    ensures { result ≡ pieces.piece_at units.now (flagged leads.now) span k }
{
    words_from(units, k, piece_words(units, leads, span, k))
}

fn piece_words(units: &RangeUnits, leads: &[bool], span: SpanWords, k: u32) -> u32
    requires same_len { length leads.now ≡ length units.now }
    requires begins_within { k < span.end }
    requires ends_within { span.end ≤ length units.now }
    ensures value { result ≡ pieces.piece_words units.now (flagged leads.now) span k }
    ensures within { k + result ≤ span.end }
{
    let last = last_word(units, leads, span, k);
    let words = u64::from(last - k) + words_of(&units.at(last as usize)) as u64;
    words.min(u64::from(span.end - k)) as u32
}

/// The last word of a piece, apart from that of a delay slot.
fn last_word(units: &RangeUnits, leads: &[bool], span: SpanWords, k: u32) -> u32
    requires same_len { length leads.now ≡ length units.now }
    requires begins_within { k < span.end }
    requires ends_within { span.end ≤ length units.now }
    ensures value { result ≡ pieces.last_word units.now (flagged leads.now) span k }
    ensures from { k ≤ result }
    ensures within { result < span.end }
{
    let mut last = k;
    while !is_last(units, leads, span, last) {
        last += 1;
    }
    last
}

// The span ends with a word, or a block does.
fn is_last(units: &RangeUnits, leads: &[bool], span: SpanWords, k: u32) -> bool
    requires same_len { length leads.now ≡ length units.now }
    requires begins_within { k < span.end }
    requires ends_within { span.end ≤ length units.now }
    ensures { result ≡ (k + 1 == span.end || ends units.now (flagged leads.now) k) }
{
    k + 1 == span.end || ends(units, leads, k as usize)
}
