//! How often the warm code of a piece reads and writes the fields of registers. Each call here does nothing: its contract is the law.

ghost use Rattle.std.specs.Prelude.{◌≡◌, ℕ, Bool, true, List};
ghost use Rattle.delay_slots.specs.declared.unit.Unit.{Unit};
ghost use Rattle.emit_spans.specs.declared.span_words.SpanWords.{SpanWords};
ghost use Rattle.emit_spans.specs.Pieces.{begins};
ghost use Rattle.emit_spans.specs.Parts.{warm_part};
ghost use Rattle.emit_spans.specs.Standing.{laid_part};
ghost use Rattle.emit_spans_laws.specs.Registers.{LinesTouchRegistersOnce, StretchesAreLines, StretchesTouchRegistersOnce, TouchesRegistersOnce, stretch_lines};

use emit_spans::laws::words_stand_at_their_entries;

/// The warm code of a piece, with the way on after it, reads the field of each of r1 to r31 at most once, and writes it at most once.
pub fn pieces_read_and_write_registers_once()
    ensures { (units : List Unit) (leads : ℕ → Bool) (span : SpanWords) (k : ℕ)
        → TouchesRegistersOnce (warm_part units leads span k) }
{}

/// So it does where it is laid down in the method of its span.
pub fn laid_pieces_read_and_write_registers_once()
    ensures { (units : List Unit) (leads : ℕ → Bool) (span : SpanWords) (k : ℕ)
        → begins leads span k ≡ true
        → TouchesRegistersOnce (laid_part units leads span k) }
{}

/// The lines of a site's method between the offsets that are told of a piece's warm code are those of this code where it lies there, and read
/// and write the field of each of r1 to r31 at most once. So do all lines between these offsets in the method of a span.
pub fn lines_of_pieces_read_and_write_registers_once()
    ensures lines { StretchesAreLines }
    ensures once { (units : List Unit) (leads : ℕ → Bool) (span : SpanWords) (k : ℕ)
        → begins leads span k ≡ true
        → LinesTouchRegistersOnce (stretch_lines units leads span k) }
    ensures in_methods { StretchesTouchRegistersOnce }
{
    words_stand_at_their_entries();
}
