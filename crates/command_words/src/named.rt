use crate::text::Text;

/// A name and the word that gives it.
#[derive(Debug, Drop)]
pub struct Named {
    /// The number of the word, from 0 over all words; the greatest where no `u32` holds it.
    pub word: u32,
    /// The name.
    pub text: Text,
}
