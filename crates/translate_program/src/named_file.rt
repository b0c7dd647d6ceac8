/// A class file, with the name under which it is stored.
#[derive(Debug, Drop)]
pub struct NamedFile {
    /// The name of its class, and `.class`.
    pub name: String,
    /// What the file holds (JVM Specification, 4.1).
    pub bytes: Vec<u8>,
}
