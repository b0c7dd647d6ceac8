use nv_values::ClassName;

/// A class and the word that names it.
#[derive(Debug, Drop)]
pub struct NamedClass {
    /// The number of the word, from 0 over all words; the greatest where no `u32` holds it.
    pub word: u32,
    /// The class.
    pub name: ClassName,
}
