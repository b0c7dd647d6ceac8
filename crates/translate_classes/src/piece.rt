/// A piece of a span: words that are done over local variables.
#[derive(Clone, Copy, Debug, PartialEq, Eq)]
pub struct Piece {
    /// Its span, counted from 0 in the class.
    pub span: u32,
    /// The offset of its code in the span's method, and the one after it.
    pub from: u32,
    pub to: u32,
    /// The address of its first word.
    pub first: u32,
    pub words: u32,
}
