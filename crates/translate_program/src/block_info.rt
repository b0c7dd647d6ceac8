/// A block: a part of a span's code that keeps registers in local variables.
#[derive(Debug, Clone, Copy)]
pub struct BlockInfo {
    /// The number of its span in the layout, from 0.
    pub span: u32,
    /// The offset of the block's first byte in the code of the span's method.
    pub from: u32,
    /// The offset after its last byte.
    pub to: u32,
    /// The address of its first word, a multiple of 4.
    pub first: u32,
    /// How many words it has, at least 1; the word of a branch's slot is one of them.
    pub words: u32,
}
