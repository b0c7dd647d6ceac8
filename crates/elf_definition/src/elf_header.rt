/// The fields of an ELF header that are looked at (System V ABI, "ELF Header").
#[derive(Clone, Copy)]
pub struct ElfHeader {
    /// `e_ident[EI_CLASS]`.
    pub ei_class: u8,
    /// `e_ident[EI_DATA]`.
    pub ei_data: u8,
    /// `e_ident[EI_VERSION]`.
    pub ei_version: u8,
    pub e_type: u16,
    pub e_machine: u16,
    pub e_version: u32,
    /// The address at which the program starts.
    pub e_entry: u32,
    /// Where the program header table begins in the file.
    pub e_phoff: u32,
    /// Where the section header table begins in the file, or 0.
    pub e_shoff: u32,
    /// The length of an entry of the program header table.
    pub e_phentsize: u16,
    /// The number of program headers.
    pub e_phnum: u16,
    /// The length of an entry of the section header table.
    pub e_shentsize: u16,
    /// The number of section headers.
    pub e_shnum: u16,
}

impl ElfHeader {
    ghost use Rattle.std.specs.Prelude.{◌≡◌};
    ghost use Rattle.elf_definition.specs.Header.{is_program_table_outside};
    ghost use Rattle.elf_definition.specs.Sections.{has_sections, is_section_table_outside};

    /// The length of a header in bytes.
    pub const SIZE: usize = 52;

    /// Whether the program header table runs past the end of the file.
    pub fn is_program_table_outside(&self, b: &[u8]) -> bool
        ensures { result ≡ is_program_table_outside b.now self.now }
    {
        (b.len() as u64) < u64::from(self.e_phoff) + 32 * u64::from(self.e_phnum)
    }

    /// Whether the file has a section header table.
    pub fn has_sections(&self) -> bool
        ensures { result ≡ has_sections self.now }
    {
        self.e_shoff != 0 && self.e_shnum != 0
    }

    /// Whether the section header table runs past the end of the file.
    pub fn is_section_table_outside(&self, b: &[u8]) -> bool
        ensures { result ≡ is_section_table_outside b.now self.now }
    {
        (b.len() as u64) < u64::from(self.e_shoff) + 40 * u64::from(self.e_shnum)
    }
}
