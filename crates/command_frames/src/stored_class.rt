/// A class file, with the name under which it is stored.
#[derive(Drop)]
pub struct StoredClass {
    /// The name of its class, and `.class`.
    pub name: String,
    pub bytes: Vec<u8>,
}
