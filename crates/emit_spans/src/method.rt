//! The method of a span.
ghost use Rattle.std.specs.Prelude.{◌≡◌, ℕ, ◌+◌, ◌*◌, ◌^◌, ◌<◌, ◌≤◌, Bool, List, IfOk, Err, length};
ghost use Rattle.delay_slots.specs.declared.unit.Unit.{Unit};
ghost use Rattle.emit_steps.specs.Widths.{size};
ghost use Rattle.emit_spans.specs.declared.span_error.SpanError.TheVariants.{TooLong};
ghost use Rattle.emit_spans.specs.Pieces as pieces;
ghost use Rattle.emit_spans.specs.Pieces.{flagged, span_of};
ghost use Rattle.emit_spans.specs.Laying as laying;
ghost use Rattle.emit_spans.specs.Locals as locals;
ghost use Rattle.emit_spans.specs.Bodies.{IsBody};

use crate::body::{Body, append_words};
use crate::laid::{Laid, MOST_BYTES};
use crate::locals::locals_of;
use crate::opening::opening_bytes;
use crate::parts::extent;
use crate::placing::code_of;
use crate::span_error::SpanError;
use crate::span_words::SpanWords;
use crate::stretch::Stretch;
use crate::targets::targets_of;
use block_builder::Block;
use delay_slots::RangeUnits;
use emit_steps::Step;
use std::alloc::Global;

/// A switch has 4 bytes for each word, so the code of more words than these is too long.
const MOST_WORDS: u32 = 16_380;

/// Room for the steps of a word: warm code has about as many, and cold code fewer.
const WORD_STEPS: usize = 8;

/// The method of a span, of no arguments and no result. It is entered where field pc has the address of a word of the span, with no branch
/// pending, and returns with the address of a word outside, or of any word whose address a register gave, in field pc.
#[derive(Drop)]
pub struct SpanMethod {
    /// Its code, at most 65,535 bytes.
    pub code: Vec<Step>,
    /// The pieces of the span, in the order of their first words.
    pub pieces: Vec<Block>,
    /// The offsets of the warm code of each piece, with its exit.
    pub stretches: Vec<Stretch>,
    /// How many local variables the code uses.
    pub locals: u16,
}

/// The method of so many words of a range of code from one on, by the units of the whole range, and flags of its leaders. `start` is the
/// address of the range's first word. There is a word, and the words are words of the range. With a meter, each word is alone, and its
/// unit's turns are taken off before it.
///
/// # Errors
/// TooLong where the code has more than 65,535 bytes, and NoMemory.
pub fn span_method(
    alloc: Global,
    units: &RangeUnits,
    leads: &[bool],
    metered: bool,
    start: u32,
    first: u32,
    words: u32,
) -> Result<SpanMethod, SpanError>
    requires same_len { length leads.now ≡ length units.now }
    requires below_end { start + 4 * length units.now < 2 ^ 32 }
    requires some_words { 0 < words }
    requires within { first + words ≤ length units.now }

    ensures code { IfOk result (λ m. m.code.items
        ≡ laying.span_code units.now (flagged leads.now) (span_of metered start first words)) }
    ensures pieces { IfOk result (λ m. m.pieces.items
        ≡ pieces.pieces_of units.now (flagged leads.now) (span_of metered start first words)) }
    ensures stretches { IfOk result (λ m. m.stretches.items
        ≡ laying.stretches_of units.now (flagged leads.now) (span_of metered start first words)) }
    ensures locals { IfOk result (λ m. m.locals ≡ locals.locals_of m.code.items) }

    ensures small { IfOk result (λ m. size m.code.items ≤ 65535) }
    ensures too_long { result ≡ Err TooLong
        → 65535
        < size (laying.span_code units.now (flagged leads.now) (span_of metered start first words)) }
{
    let span = SpanWords {
        metered,
        start,
        first,
        end: first + words,
    };
    method_of(alloc, units, leads, span)
}

fn method_of(
    alloc: Global,
    units: &RangeUnits,
    leads: &[bool],
    span: SpanWords,
) -> Result<SpanMethod, SpanError>
    requires same_len { length leads.now ≡ length units.now }
    requires below_end { span.start + 4 * length units.now < 2 ^ 32 }
    requires within { (span.first ≤ span.end) × (span.end ≤ length units.now) }
    ensures code { IfOk result (λ m. m.code.items
        ≡ laying.span_code units.now (flagged leads.now) span) }
    ensures pieces { IfOk result (λ m. m.pieces.items
        ≡ pieces.pieces_of units.now (flagged leads.now) span) }
    ensures stretches { IfOk result (λ m. m.stretches.items
        ≡ laying.stretches_of units.now (flagged leads.now) span) }
    ensures locals { IfOk result (λ m. m.locals ≡ locals.locals_of m.code.items) }
    ensures small { IfOk result (λ m. size m.code.items ≤ 65535) }
    ensures too_long { result ≡ Err TooLong
        → 65535 < size (laying.span_code units.now (flagged leads.now) span) }
{
    let mut body = begun(alloc, span)?;
    append_words(alloc, units, leads, span, &mut body)?;
    finished(alloc, units, leads, span, body)
}

// No word is laid down yet.
fn begun(alloc: Global, span: SpanWords) -> Result<Body, SpanError>
    requires ordered { span.first ≤ span.end }
    requires below_end { span.start + 4 * span.end < 2 ^ 32 }
    ensures body { IfOk result (λ body. (units : List Unit) (leads : ℕ → Bool)
        → IsBody units leads span span.first body) }
    ensures too_long { result ≡ Err TooLong → 65535 < laying.base span }
{
    if span.end - span.first > MOST_WORDS {
        return Err(SpanError::TooLong);
    }
    let base = opening_bytes(span.address(span.first)) + 13 + 4 * (span.end - span.first);
    if base > MOST_BYTES {
        return Err(SpanError::TooLong);
    }
    let words = (span.end - span.first) as usize;
    Ok(Body {
        warm: Laid::at(alloc, base, WORD_STEPS * words)?,
        cold: Laid::at(alloc, 0, WORD_STEPS * words)?,
        offsets: Vec::with_capacity(alloc, words)?,
        pieces: Vec::new(alloc),
        stretches: Vec::new(alloc),
    })
}

// All words are laid down.
fn finished(
    alloc: Global,
    units: &RangeUnits,
    leads: &[bool],
    span: SpanWords,
    body: Body,
) -> Result<SpanMethod, SpanError>
    requires same_len { length leads.now ≡ length units.now }
    requires below_end { span.start + 4 * length units.now < 2 ^ 32 }
    requires within { (span.first ≤ span.end) × (span.end ≤ length units.now) }
    requires body { IsBody units.now (flagged leads.now) span span.end body }
    ensures code { IfOk result (λ m. m.code.items
        ≡ laying.span_code units.now (flagged leads.now) span) }
    ensures pieces { IfOk result (λ m. m.pieces.items
        ≡ pieces.pieces_of units.now (flagged leads.now) span) }
    ensures stretches { IfOk result (λ m. m.stretches.items
        ≡ laying.stretches_of units.now (flagged leads.now) span) }
    ensures locals { IfOk result (λ m. m.locals ≡ locals.locals_of m.code.items) }
    ensures small { IfOk result (λ m. size m.code.items ≤ 65535) }
    ensures too_long { result ≡ Err TooLong
        → 65535 < size (laying.span_code units.now (flagged leads.now) span) }
{
    let cold_base = body.warm.end;
    let end = cold_base + body.cold.end;
    if end >= MOST_BYTES {
        return Err(SpanError::TooLong);
    }
    let targets = targets_of(alloc, units, leads, span, &body.offsets, cold_base)?;
    let code = code_of(
        alloc,
        extent(span),
        &targets,
        end,
        body.warm.steps,
        body.cold.steps,
    )?;
    let locals = locals_of(&code);
    Ok(SpanMethod {
        code,
        pieces: body.pieces,
        stretches: body.stretches,
        locals,
    })
}
