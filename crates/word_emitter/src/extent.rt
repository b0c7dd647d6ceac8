ghost use Rattle.std.specs.Prelude.{◌≡◌};
ghost use Rattle.word_emitter.specs.Exits as emitted;

/// The addresses of the words of a span, from the first one to the one after the last.
#[derive(Clone, Copy)]
pub struct Extent {
    pub first: u32,
    pub end: u32,
}

impl Extent {
    /// Whether a word of the span is at an address.
    pub fn has(self, address: u32) -> bool
        ensures { result ≡ emitted.has self address }
    {
        self.first <= address && address < self.end && address % 4 == self.first % 4
    }
}
