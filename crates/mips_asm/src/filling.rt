/// What a line puts into its segment.
#[derive(Clone, Copy)]
pub enum Filling {
    /// Nothing.
    Nothing,
    /// One word.
    Word(u32),
    /// So many bytes of zeros, a multiple of 4.
    Zeros(u64),
}
