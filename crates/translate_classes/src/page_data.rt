/// A page, by its number below 524,288, with its 1,024 words.
#[derive(Clone, Copy)]
pub struct PageData<'a> {
    pub page: u32,
    pub words: &'a [u32],
}
