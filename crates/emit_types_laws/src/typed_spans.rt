//! What holds of the methods of spans. Each call here does nothing: its contract is the law.

ghost use Rattle.emit_types_laws.specs.Methods.{BodiesHaveTypings};
ghost use Rattle.emit_types_laws.specs.Spans.{SpansAreTyped};

use crate::laws::{guards_are_typed, parts_of_spans_are_typed};
use emit_simulation_laws::unit_laws::units_are_lawful;
use emit_spans::laws::{pieces_are_of_blocks, words_keep_to_their_span};

/// The method of a span of a range's words is typed.
pub fn spans_are_typed()
    ensures { SpansAreTyped }
{
    units_are_lawful();
    words_keep_to_their_span();
    pieces_are_of_blocks();
    parts_of_spans_are_typed();
    guards_are_typed();
}

/// A method that is laid down from a typed body, with room for its operands and parameters, has a typing.
pub fn bodies_have_typings()
    ensures { BodiesHaveTypings }
{}
