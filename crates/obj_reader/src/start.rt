/// Where the numbers of an object begin, where the sections and the symbols of all objects are numbered through.
#[derive(Clone, Copy)]
pub struct Start {
    /// The number of the object.
    pub object: u32,
    /// The number of its first section.
    pub section: usize,
    /// The number of its first symbol.
    pub symbol: usize,
}
