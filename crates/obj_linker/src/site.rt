/// A word that a relocation changes.
#[derive(Clone, Copy)]
pub struct Site {
    /// The number of the relocation's object.
    pub object: u32,
    /// Where the word is in its section.
    pub r_offset: u32,
    /// How the word is changed.
    pub r_type: u8,
    /// Where the word is in the image.
    pub at: usize,
    /// Where the word of the lower half is that goes with it.
    pub low_at: usize,
    /// Whether its symbol is local.
    pub is_local: bool,
    /// The value of its symbol.
    pub value: u32,
}
