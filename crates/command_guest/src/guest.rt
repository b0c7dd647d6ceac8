use command_deeds::Launch;
use command_words::{Named, Pages};

/// A guest that is to be run, on the reference machine or as the classes that it becomes.
#[derive(Debug, Drop)]
pub struct Guest<'a> {
    /// Its file, and the word that names it.
    pub input: &'a Named,
    /// Its heap and its stack.
    pub pages: Pages,
    /// Its arguments, files, steps and disk.
    pub launch: Launch<'a>,
}
