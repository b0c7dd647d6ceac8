//! What a translation with a meter is about.

ghost use Rattle.std.specs.Prelude.{ℕ};

/// A guest and the classes that follow it, where these keep a meter: their kinds of state, what is counted, and which states belong together by
/// what is on the meter.
pub trait MeteredTranslation {
    ghost Guest: { Type 0 };

    ghost Classes: { Type 0 };

    /// What is counted.
    ghost Counted: { Type 0 };

    /// The guest between two units, and the classes at rest with so much on their meter.
    ghost rests: { ℕ → Guest → Classes → Type 0 };
}
