use crate::texts::Texts;

/// The names of `--with` or `--keep`.
///
/// There are 1 to 64, all different, each of 1 to 255 bytes and none of these 0; or none where the option is left out.
#[derive(Debug, Drop)]
pub struct NameList {
    /// The number of the word that holds them, from 0 over all words; 0 where the option is left out.
    pub word: u32,
    /// The names, in order.
    pub names: Texts,
}
