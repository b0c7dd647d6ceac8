/// A section: a range of addresses and what it is for.
#[derive(Clone, Copy)]
pub struct Sec {
    /// What it holds (`sh_type`), as 1 for PROGBITS and 8 for NOBITS.
    pub kind: u32,
    /// Its attributes (`sh_flags`): the sum of 1 for WRITE, 2 for ALLOC and 4 for EXECINSTR.
    pub flags: u32,
    /// The address of its first byte (`sh_addr`).
    pub addr: u32,
    /// Its length in bytes (`sh_size`).
    pub size: u32,
}
