/// Words of a range that follow one another and go into one method.
#[derive(Clone, Copy, Debug, PartialEq, Eq)]
pub struct Span {
    /// The first word, counted from 0.
    pub first: u32,
    /// How many words there are.
    pub words: u32,
}
