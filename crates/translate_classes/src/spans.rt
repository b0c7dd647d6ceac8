//! The methods of spans.
ghost use Rattle.std.specs.Prelude.{◌≡◌, ◌+◌, ◌*◌, ◌≤◌, ◌<◌, ◌∷◌, ◌++◌, [], false, All, IfOk, OnOk, length, sum_by, zip};
ghost use Rattle.emit_steps.specs.Widths.{size};
ghost use Rattle.emit_spans.specs.Locals.{locals_of};
ghost use Rattle.emit_spans.specs.Pieces.{flagged, pieces_of, span_of};
ghost use Rattle.emit_spans.specs.Laying.{stretches_of};
ghost use Rattle.emit_methods_laws.specs.Naming.{fields_of};
ghost use Rattle.emit_methods_laws.specs.Whole.{HasHelpers};
ghost use Rattle.translate_classes.specs.Parts.{IsCode, IsSpan};
ghost use Rattle.translate_classes.specs.Making.{AddsMethods};
ghost use Rattle.translate_classes.specs.Code.{code_of_span, span_at, span_plan, span_plans};
ghost use Rattle.translate_classes.specs.Blocks.{first_pieces, is_slot, is_told, placed, span_words, told_pieces};

use crate::NoMemory;
use crate::building::put_method;
use crate::part::Part;
use crate::piece::Piece;
use block_builder::Block;
use delay_slots::Unit;
use emit_assembly::References;
use emit_classes::ClassBuilder;
use emit_layout::span_name;
use emit_limits::slot_laws::spans_take_few_slots;
use emit_methods_laws::named_code::spans_name_well;
use emit_methods_laws::whole::spans_are_whole;
use emit_simulation_laws::unit_laws::units_are_lawful;
use emit_spans::{SpanError, SpanMethod, Stretch, span_method};
use method_splitter::Span;
use std::alloc::{AllocError, Global};

/// Adds the methods of spans, and gives where their pieces are.
pub fn add_spans(
    alloc: Global,
    class: &mut ClassBuilder,
    part: &Part,
    spans: &[Span],
    references: &References,
) -> Result<Vec<Piece>, NoMemory>
    requires spans { All (IsSpan part.now.words) spans.now }
    requires few { length spans.now ≤ 2048 }
    requires code { IsCode part.now.units.now }
    requires sizes { All (λ s. size (code_of_span part.now s) ≤ 65535) spans.now }
    requires references { HasHelpers references.now }
    requires fields { fields_of part.now.metered ≤ length references.now.fields }
    requires none { class.old.methods ≡ [] }
    requires room { length class.old.pool
        + (4 * length spans.now + 9 * sum_by (λ s. s.words) spans.now) ≤ 65534 }
    ensures methods { OnOk result (AddsMethods class.old class.new
        (span_plans part.now spans.now references.now (length spans.now))) }
    ensures few { OnOk result (length class.new.pool
        ≤ length class.old.pool + (4 * length spans.now + 9 * sum_by (λ s. s.words) spans.now)) }
    ensures pieces { IfOk result (λ pieces. pieces.items
        ≡ first_pieces part.now spans.now (length spans.now)) }
{
    let mut pieces = Vec::new(alloc);
    for k in 0..spans.len() as u32 {
        let method = add_span(alloc, class, part, spans, k, references)?;
        append_pieces(part, k, &method, &mut pieces)?;
    }
    Ok(pieces)
}

// Adds the method of a span.
fn add_span(
    alloc: Global,
    class: &mut ClassBuilder,
    part: &Part,
    spans: &[Span],
    k: u32,
    references: &References,
) -> Result<SpanMethod, NoMemory>
    requires spans { All (IsSpan part.now.words) spans.now }
    requires within { k < length spans.now }
    requires small { k < 2048 }
    requires code { IsCode part.now.units.now }
    requires size { size (code_of_span part.now (span_at spans.now k)) ≤ 65535 }
    requires references { HasHelpers references.now }
    requires fields { fields_of part.now.metered ≤ length references.now.fields }
    requires few { length class.old.methods < 65535 }
    requires room { length class.old.pool + (4 + 9 * (span_at spans.now k).words) ≤ 65534 }
    ensures method { OnOk result (AddsMethods class.old class.new
        (span_plan part.now spans.now references.now k ∷ [])) }
    ensures few { OnOk result (length class.new.pool
        ≤ length class.old.pool + (4 + 9 * (span_at spans.now k).words)) }
    ensures pieces { IfOk result (λ m. m.pieces.items
        ≡ pieces_of part.now.units.now (flagged part.now.leads.now)
        (span_words part.now spans.now k)) }
    ensures stretches { IfOk result (λ m. m.stretches.items
        ≡ stretches_of part.now.units.now (flagged part.now.leads.now)
        (span_words part.now spans.now k)) }
{
    let span = &spans[k as usize];
    let method = method_of(alloc, part, span)?;
    let name = span_name(alloc, k)?;
    units_are_lawful();
    spans_name_well();
    spans_are_whole();
    spans_take_few_slots();
    put_method(
        alloc,
        class,
        name.as_str(),
        "()V",
        method.locals,
        method.code.as_slice(),
        references,
    )?;
    Ok(method)
}

fn method_of(alloc: Global, part: &Part, span: &Span) -> Result<SpanMethod, NoMemory>
    requires span { IsSpan part.now.words span.now }
    requires size { size (code_of_span part.now span.now) ≤ 65535 }
    ensures code { IfOk result (λ m. m.code.items ≡ code_of_span part.now span.now) }
    ensures locals { IfOk result (λ m. m.locals ≡ locals_of (code_of_span part.now span.now)) }
    ensures pieces { IfOk result (λ m. m.pieces.items
        ≡ pieces_of part.now.units.now (flagged part.now.leads.now)
        (span_of part.now.metered part.now.start (part.now.first + span.now.first) span.now.words)) }
    ensures stretches { IfOk result (λ m. m.stretches.items
        ≡ stretches_of part.now.units.now (flagged part.now.leads.now)
        (span_of part.now.metered part.now.start (part.now.first + span.now.first) span.now.words)) }
{
    let first = part.first + span.first;
    match span_method(
        alloc,
        part.units,
        part.leads,
        part.metered,
        part.start,
        first,
        span.words,
    ) {
        Ok(method) => Ok(method),
        Err(SpanError::NoMemory) => Err(AllocError),
        Err(SpanError::TooLong) => unreachable!(),
    }
}

// Where the pieces of a span stand, but for a piece that is only the delay slot of a branch in the span before.
fn append_pieces(
    part: &Part,
    k: u32,
    method: &SpanMethod,
    pieces: &mut Vec<Piece>,
) -> Result<(), NoMemory>
    requires within { All (λ p. p.first < length part.now.units.now) method.now.pieces.items }
    ensures { OnOk result (pieces.new.items ≡ pieces.old.items
        ++ told_pieces part.now k (zip method.now.pieces.items method.now.stretches.items)) }
{
    for (piece, stretch) in method.pieces.iter().zip(method.stretches.iter()) {
        append_piece(part, k, piece, stretch, pieces)?;
    }
    Ok(())
}

fn append_piece(
    part: &Part,
    k: u32,
    piece: &Block,
    stretch: &Stretch,
    pieces: &mut Vec<Piece>,
) -> Result<(), NoMemory>
    requires within { piece.now.first < length part.now.units.now }
    ensures { OnOk result (pieces.new.items ≡ pieces.old.items
        ++ told_pieces part.now k ((piece.now, stretch.now) ∷ [])) }
{
    if !is_slot(part, piece.first) {
        pieces.push(placed(part, k, piece, stretch))?;
    }
    Ok(())
}

// Whether a word is the delay slot of the branch before it, and no block begins with it.
fn is_slot(part: &Part, word: u32) -> bool
    requires within { word < length part.now.units.now }
    ensures { result ≡ is_slot part.now.units.now (flagged part.now.leads.now) word }
{
    let k = word as usize;
    k != 0 && !part.leads[k] && matches!(part.units.at(k - 1), Unit::Branch { .. })
}

fn placed(part: &Part, k: u32, piece: &Block, stretch: &Stretch) -> Piece
    requires within { piece.now.first < length part.now.units.now }
    ensures { result ≡ placed part.now k (piece.now, stretch.now) }
{
    Piece {
        span: k,
        from: stretch.from,
        to: stretch.to,
        first: part.start + 4 * piece.first,
        words: piece.words,
    }
}
