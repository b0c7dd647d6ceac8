use jvm_definition::Sequence;

/// The table of a method, and how many bytes it has. Where they are too many it is not written.
#[derive(Drop)]
pub struct SizedTable {
    pub bytes: Sequence<u8>,
    pub size: u64,
}
