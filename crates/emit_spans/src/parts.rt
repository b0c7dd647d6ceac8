//! The code of words before it is laid down: steps that leave name addresses.
ghost use Rattle.std.specs.Prelude.{◌≡◌, ◌+◌, ◌-◌, ◌*◌, ◌^◌, ◌<◌, ◌≤◌, ◌++◌, if◌then◌else◌, IfOk, IsTrue, OnOk, length};
ghost use Rattle.word_emitter.specs.Exits.{exit_code};
ghost use Rattle.word_emitter.specs.Pieces.{ends_with_slot, piece_units};
ghost use Rattle.emit_spans.specs.Neighbours.{address};
ghost use Rattle.emit_spans.specs.Pieces as pieces;
ghost use Rattle.emit_spans.specs.Pieces.{flagged};
ghost use Rattle.emit_spans.specs.Parts as parts;

use crate::NoMemory;
use crate::neighbours::{next_inner, next_piece};
use crate::span_words::SpanWords;
use block_builder::{Block, words_of};
use delay_slots::{RangeUnits, Unit};
use emit_instructions::{Bank, append_unit};
use emit_steps::Step;
use meter::append_guard;
use std::alloc::Global;
use word_emitter::{Extent, append_exit, append_warm};

/// Room for the steps of most words, so that few parts have to grow.
const STEPS: usize = 16;

/// The warm code of a piece, which begins with a word, and its exit.
///
/// # Errors
/// Out of memory for the code.
pub fn warm_part(
    alloc: Global,
    units: &RangeUnits,
    leads: &[bool],
    span: SpanWords,
    k: u32,
    piece: &Block,
) -> Result<Vec<Step>, NoMemory>
    requires same_len { length leads.now ≡ length units.now }
    requires below_end { span.start + 4 * length units.now < 2 ^ 32 }
    requires begins_within { (span.first ≤ k) × (k < span.end) }
    requires ends_within { span.end ≤ length units.now }
    requires piece { piece.now ≡ pieces.piece_at units.now (flagged leads.now) span k }
    ensures { IfOk result (λ code. code.items
        ≡ parts.warm_part units.now (flagged leads.now) span k) }
{
    let own = own_units(alloc, units, piece)?;
    let last = k + (own.len() - 1) as u32;
    let mut code = Vec::with_capacity(alloc, STEPS)?;
    append_warm(alloc, &own, span.address(k), &mut code)?;
    append_exit_of(
        &units.at(last as usize),
        span,
        next_piece(leads, span, k),
        last,
        &mut code,
    )?;
    Ok(code)
}

/// The code of a word alone and its exit.
///
/// # Errors
/// Out of memory for the code.
pub fn cold_part(
    alloc: Global,
    units: &RangeUnits,
    leads: &[bool],
    span: SpanWords,
    k: u32,
) -> Result<Vec<Step>, NoMemory>
    requires same_len { length leads.now ≡ length units.now }
    requires below_end { span.start + 4 * length units.now < 2 ^ 32 }
    requires begins_within { (span.first ≤ k) × (k < span.end) }
    requires ends_within { span.end ≤ length units.now }
    ensures { IfOk result (λ code. code.items
        ≡ parts.cold_part units.now (flagged leads.now) span k) }
{
    let mut code = Vec::with_capacity(alloc, STEPS)?;
    let unit = units.at(k as usize);
    append_front(span.metered, &unit, span.address(k), &mut code)?;
    append_unit(alloc, &Bank::cold(), &unit, span.address(k), &mut code)?;
    append_exit_of(&unit, span, next_inner(leads, span, k), k, &mut code)?;
    Ok(code)
}

// With a meter, the guard of a unit stands in front of its code.
fn append_front(metered: bool, unit: &Unit, at: u32, code: &mut Vec<Step>) -> Result<(), NoMemory>
    ensures { OnOk result (code.new.items ≡ code.old.items
        ++ parts.front_of metered unit.now at) }
{
    if metered {
        append_guard(unit, at, code)
    } else {
        Ok(())
    }
}

/// The addresses of the span.
pub fn extent(span: SpanWords) -> Extent
    requires ordered { span.first ≤ span.end }
    requires below_end { span.start + 4 * span.end < 2 ^ 32 }
    ensures { result ≡ parts.extent span }
{
    Extent {
        first: span.address(span.first),
        end: span.address(span.end),
    }
}

fn append_exit_of(
    unit: &Unit,
    span: SpanWords,
    behind: Option<u32>,
    k: u32,
    code: &mut Vec<Step>,
) -> Result<(), NoMemory>
    requires ordered { span.first ≤ span.end }
    requires below_end { span.start + 4 * span.end < 2 ^ 32 }
    requires within { k < span.end }
    ensures { OnOk result (code.new.items ≡ code.old.items
        ++ exit_code (parts.extent span) behind unit.now (address span k)) }
{
    append_exit(extent(span), behind, unit, span.address(k), code)
}

/// The units of a piece: the word of the delay slot of its branch is in the branch's unit.
fn own_units(alloc: Global, units: &RangeUnits, piece: &Block) -> Result<Vec<Unit>, NoMemory>
    requires some { 0 < piece.now.words }
    requires within { piece.now.first + piece.now.words ≤ length units.now }
    ensures value { IfOk result (λ own. own.items ≡ piece_units units.now piece.now) }
    ensures some { IfOk result (λ own. 0 < length own.items) }
    ensures few { IfOk result (λ own. length own.items ≤ piece.now.words) }
{
    let count = own_words(units, piece) as usize;
    units.part(alloc, piece.first as usize, count)
}

fn own_words(units: &RangeUnits, piece: &Block) -> u32
    requires some { 0 < piece.now.words }
    requires within { piece.now.first + piece.now.words ≤ length units.now }
    ensures value { result ≡ (if ends_with_slot units.now piece.now then piece.now.words - 1
        else piece.now.words) }
    ensures some { 0 < result }
    ensures few { result ≤ piece.now.words }
{
    if ends_with_slot(units, piece) {
        piece.words - 1
    } else {
        piece.words
    }
}

fn ends_with_slot(units: &RangeUnits, piece: &Block) -> bool
    requires { piece.now.first + piece.now.words ≤ length units.now }
    ensures value { result ≡ ends_with_slot units.now piece.now }
    ensures many { IsTrue result → 2 ≤ piece.now.words }
{
    let end = piece.first as usize + piece.words as usize;
    piece.words >= 2 && words_of(&units.at(end - 2)) == 2
}
