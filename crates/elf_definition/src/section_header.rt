use crate::abi::{SHF_ALLOC, SHF_EXECINSTR, SHT_PROGBITS};

/// The fields of an entry of the section header table that are looked at (System V ABI, "Sections").
#[derive(Clone, Copy)]
pub struct SectionHeader {
    /// What the section is.
    pub sh_type: u32,
    /// Whether it has memory, and whether it is code.
    pub sh_flags: u32,
    /// The address of its first byte.
    pub sh_addr: u32,
    /// Its length in bytes.
    pub sh_size: u32,
}

impl SectionHeader {
    ghost use Rattle.std.specs.Prelude.{◌≡◌, ◌+◌};
    ghost use Rattle.elf_definition.specs.Sections.{is_code, is_code_unaligned};

    /// The length of an entry of the section header table in bytes.
    pub const SIZE: usize = 40;

    /// Whether it holds code, and some.
    pub fn is_code(&self) -> bool
        ensures { result ≡ is_code self.now }
    {
        self.sh_type == SHT_PROGBITS
            && self.sh_flags & SHF_ALLOC != 0
            && self.sh_flags & SHF_EXECINSTR != 0
            && self.sh_size > 0
    }

    /// Whether it holds code and begins at no multiple of 4.
    pub fn is_code_unaligned(&self) -> bool
        ensures { result ≡ is_code_unaligned self.now }
    {
        self.is_code() && self.sh_addr % 4 != 0
    }

    /// The first address after it.
    pub fn end(&self) -> u64
        ensures { result ≡ self.now.sh_addr + self.now.sh_size }
    {
        u64::from(self.sh_addr) + u64::from(self.sh_size)
    }
}
