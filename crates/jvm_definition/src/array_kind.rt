/// The kinds of arrays (JVM Specification, 2.4).
#[derive(Clone, Copy)]
pub enum ArrayKind {
    /// Arrays of ints, `[I`.
    Ints,
    /// Arrays of arrays of ints, `[[I`.
    Pages,
}
