use std::alloc::Global;

/// A loaded segment: a range of memory and the bytes that it begins with.
#[derive(Drop)]
pub struct Part {
    /// The address of its first byte (`p_vaddr`, and `p_paddr` too).
    pub vaddr: u32,
    /// Its length in memory, in bytes (`p_memsz`).
    pub mem: u32,
    /// Its permissions (`p_flags`): the sum of 1 to execute, 2 to write and 4 to read.
    pub flags: u32,
    /// Its file part, the bytes that the file holds (`p_filesz` of them).
    pub bytes: Vec<u8, Global>,
}
