use jvm_code::Method;
use jvm_definition::Sequence;

/// The methods of a class with pruned code, and the table of each. Where they take too many bytes some tables are not written.
#[derive(Drop)]
pub struct TabledMethods {
    pub methods: Vec<Method>,
    pub tables: Vec<Sequence<u8>>,
    /// How many bytes the methods with their tables take.
    pub bytes: u64,
}
