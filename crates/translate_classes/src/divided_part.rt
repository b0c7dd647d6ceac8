ghost use Rattle.std.specs.Prelude.{◌≤◌, All, length, sum_by};
ghost use Rattle.emit_steps.specs.Widths.{size};
ghost use Rattle.translate_classes.specs.Code.{code_of_span};
ghost use Rattle.translate_classes.specs.Parts.{IsSpan};

use crate::part::Part;
use method_splitter::Span;

/// A part of the code that is divided into spans, each of which becomes a method: there is one at least, and each fits a method.
#[derive(Clone, Copy)]
pub struct DividedPart<'a> {
    /// The words of the class.
    pub part: &'a Part<'a>,
    /// Its spans, in order.
    pub spans: &'a [Span],
    pub ghost words: { All (IsSpan part.now.words) spans.now },
    pub ghost some: { 1 ≤ length spans.now },
    pub ghost few: { length spans.now ≤ 879 },
    pub ghost few_words: { sum_by (λ s. s.words) spans.now ≤ 6144 },
    pub ghost sizes: { All (λ s. size (code_of_span part.now s) ≤ 65535) spans.now },
}
