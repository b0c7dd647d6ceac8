use asm_lines::Labels;

/// What the first pass over a text finds.
#[derive(Drop)]
pub struct Found<'a> {
    /// The labels of the whole text; of a name that several lines have, the first.
    pub labels: Labels<'a>,
    /// The first line, from 1, with a label that an earlier line has.
    pub again: Option<u32>,
}
