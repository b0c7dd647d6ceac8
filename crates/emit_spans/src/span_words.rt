ghost use Rattle.std.specs.Prelude.{◌≡◌, ◌+◌, ◌*◌, ◌^◌, ◌<◌};
ghost use Rattle.emit_spans.specs.Neighbours as neighbours;

/// The words of a span, as words of its range: they are counted from the range's first word on, which is word 0.
#[derive(Clone, Copy)]
pub struct SpanWords {
    /// Whether each unit's turns are taken off a meter before it.
    pub metered: bool,
    /// The address of the range's first word.
    pub start: u32,
    /// The span's first word.
    pub first: u32,
    /// The word after its last one.
    pub end: u32,
}

impl SpanWords {
    /// The address of a word.
    pub(crate) fn address(self, k: u32) -> u32
        requires { self.start + 4 * k < 2 ^ 32 }
        ensures { result ≡ neighbours.address self k }
    {
        self.start + 4 * k
    }
}
