//! The code of the words of a span, one after the other.
ghost use Rattle.std.specs.Prelude.{◌≡◌, ◌+◌, ◌*◌, ◌^◌, ◌≤◌, ◌<◌, OnOk, Err, length, true};
ghost use Rattle.emit_spans.specs.declared.span_error.SpanError.TheVariants.{TooLong};
ghost use Rattle.emit_spans.specs.Pieces as pieces;
ghost use Rattle.emit_spans.specs.Pieces.{flagged};
ghost use Rattle.emit_spans.specs.Neighbours.{is_inner};
ghost use Rattle.emit_spans.specs.Laying.{return_offset};
ghost use Rattle.emit_spans.specs.Bodies.{IsBody};

use crate::laid::Laid;
use crate::parts::{cold_part, warm_part};
use crate::pieces::{begins, piece_at};
use crate::span_error::SpanError;
use crate::span_words::SpanWords;
use crate::stretch::Stretch;
use block_builder::Block;
use delay_slots::RangeUnits;
use std::alloc::Global;

/// The warm code of pieces, and the code of other words.
#[derive(Drop)]
pub struct Body {
    /// Warm code, which is after the switch.
    pub warm: Laid,
    /// The code of the other words, from offset 0 on.
    pub cold: Laid,
    /// The offset of the code of each word, in its part of these two.
    pub offsets: Vec<u32>,
    pub pieces: Vec<Block>,
    /// The offsets of each piece's warm code.
    pub stretches: Vec<Stretch>,
}

/// Lays down the code of all words of a span.
pub fn append_words(
    alloc: Global,
    units: &RangeUnits,
    leads: &[bool],
    span: SpanWords,
    body: &mut Body,
) -> Result<(), SpanError>
    requires same_len { length leads.now ≡ length units.now }
    requires below_end { span.start + 4 * length units.now < 2 ^ 32 }
    requires within { (span.first ≤ span.end) × (span.end ≤ length units.now) }
    requires body { IsBody units.now (flagged leads.now) span span.first body.old }
    ensures body { OnOk result (IsBody units.now (flagged leads.now) span span.end body.new) }
    ensures too_long { result ≡ Err TooLong
        → 65535 < return_offset units.now (flagged leads.now) span }
{
    for k in span.first..span.end {
        append_word(alloc, units, leads, span, k, body)?;
    }
    Ok(())
}

fn append_word(
    alloc: Global,
    units: &RangeUnits,
    leads: &[bool],
    span: SpanWords,
    k: u32,
    body: &mut Body,
) -> Result<(), SpanError>
    requires same_len { length leads.now ≡ length units.now }
    requires below_end { span.start + 4 * length units.now < 2 ^ 32 }
    requires begins_within { (span.first ≤ k) × (k < span.end) }
    requires ends_within { span.end ≤ length units.now }
    requires body { IsBody units.now (flagged leads.now) span k body.old }
    ensures body { OnOk result (IsBody units.now (flagged leads.now) span (k + 1) body.new) }
    ensures too_long { result ≡ Err TooLong
        → 65535 < return_offset units.now (flagged leads.now) span }
{
    if begins(leads, span, k) {
        append_piece(alloc, units, leads, span, k, body)
    } else {
        append_inner(alloc, units, leads, span, k, body)
    }
}

fn append_piece(
    alloc: Global,
    units: &RangeUnits,
    leads: &[bool],
    span: SpanWords,
    k: u32,
    body: &mut Body,
) -> Result<(), SpanError>
    requires same_len { length leads.now ≡ length units.now }
    requires below_end { span.start + 4 * length units.now < 2 ^ 32 }
    requires begins_within { (span.first ≤ k) × (k < span.end) }
    requires ends_within { span.end ≤ length units.now }
    requires begins { pieces.begins (flagged leads.now) span k ≡ true }
    requires body { IsBody units.now (flagged leads.now) span k body.old }
    ensures body { OnOk result (IsBody units.now (flagged leads.now) span (k + 1) body.new) }
    ensures too_long { result ≡ Err TooLong
        → 65535 < return_offset units.now (flagged leads.now) span }
{
    let piece = piece_at(units, leads, span, k);
    let from = body.warm.end;
    let part = warm_part(alloc, units, leads, span, k, &piece)?;
    body.warm.lay(part)?;
    let to = body.warm.end;
    body.offsets.push(from)?;
    body.pieces.push(piece)?;
    body.stretches.push(Stretch { from, to })?;
    Ok(())
}

fn append_inner(
    alloc: Global,
    units: &RangeUnits,
    leads: &[bool],
    span: SpanWords,
    k: u32,
    body: &mut Body,
) -> Result<(), SpanError>
    requires same_len { length leads.now ≡ length units.now }
    requires below_end { span.start + 4 * length units.now < 2 ^ 32 }
    requires begins_within { (span.first ≤ k) × (k < span.end) }
    requires ends_within { span.end ≤ length units.now }
    requires inner { is_inner (flagged leads.now) span k ≡ true }
    requires body { IsBody units.now (flagged leads.now) span k body.old }
    ensures body { OnOk result (IsBody units.now (flagged leads.now) span (k + 1) body.new) }
    ensures too_long { result ≡ Err TooLong
        → 65535 < return_offset units.now (flagged leads.now) span }
{
    let from = body.cold.end;
    let part = cold_part(alloc, units, leads, span, k)?;
    body.cold.lay(part)?;
    body.offsets.push(from)?;
    Ok(())
}
