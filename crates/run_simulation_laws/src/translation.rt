//! What a translation is about, for the laws of its runs.

/// A guest and the classes that follow it: their kinds of state, what is counted, and which states belong together.
pub trait Translation {
    ghost Guest: { Type 0 };

    ghost Classes: { Type 0 };

    /// What is counted.
    ghost Counted: { Type 0 };

    /// The guest between two units, and the classes at rest.
    ghost rests: { Guest → Classes → Type 0 };

    /// The guest at a marked state, and the classes at the place that belongs to it.
    ghost at_place: { Guest → Classes → Type 0 };
}
