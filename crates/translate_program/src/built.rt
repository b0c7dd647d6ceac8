use crate::layout::Layout;
use crate::named_file::NamedFile;

/// What a program is translated to.
#[derive(Debug, Drop)]
pub struct Built {
    /// The class files: the main class, then the classes of code, then the classes of data.
    pub files: Vec<NamedFile>,
    /// Where the program's words are in them.
    pub layout: Layout,
}
