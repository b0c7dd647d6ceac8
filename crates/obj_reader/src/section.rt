use crate::start::Start;
use elf_definition::abi::{
    SHF_ALLOC, SHF_EXECINSTR, SHF_WRITE, SHT_NOBITS, SHT_PROGBITS, SHT_REL, SHT_RELA, SHT_STRTAB,
    SHT_SYMTAB,
};
use elf_reader::{ElfHeader, word};

/// A section of an object: the fields of its header that are looked at (System V ABI, "Sections").
#[derive(Clone, Copy)]
pub struct Section {
    /// The number of its object.
    pub object: u32,
    /// Its own number in the object.
    pub number: u32,
    /// What it holds.
    pub sh_type: u32,
    /// Whether it has memory, can be written, and is code.
    pub sh_flags: u32,
    /// Where its bytes begin in the file.
    pub sh_offset: u32,
    /// Its length in bytes.
    pub sh_size: u32,
    /// Of a symbol table: the number of its string table.
    pub sh_link: u32,
    /// Of relocations: the number of the section that they change.
    pub sh_info: u32,
    /// What its address is a multiple of, if not 0.
    pub sh_addralign: u32,
}

impl Section {
    ghost use Rattle.std.specs.Prelude.{◌≡◌, ◌+◌, ◌*◌, ◌≤◌, length};
    ghost use Rattle.elf_definition.specs.Header.{header_of};
    ghost use Rattle.obj_reader.specs.Sections as spec;

    /// The length of an entry of the section header table in bytes.
    pub const SIZE: usize = 40;

    /// Reads entry `i` of the section header table, which lies in the file.
    #[tactic(auto, unfolding(crate::specs::Sections::section))]
    pub fn read(start: Start, b: &[u8], header: ElfHeader, i: u16) -> Section
        requires read { header ≡ header_of b.now }
        requires there { header.e_shoff + 40 * i + 40 ≤ length b.now }
        ensures { result ≡ spec.section start b.now i }
    {
        let at = header.e_shoff as usize + Section::SIZE * i as usize;
        Section {
            object: start.object,
            number: u32::from(i),
            sh_type: word(b, at + 4),
            sh_flags: word(b, at + 8),
            sh_offset: word(b, at + 16),
            sh_size: word(b, at + 20),
            sh_link: word(b, at + 24),
            sh_info: word(b, at + 28),
            sh_addralign: word(b, at + 32),
        }
    }

    /// Whether its bytes are in the file.
    pub fn has_bytes(&self) -> bool
        ensures { result ≡ spec.has_bytes self.now }
    {
        self.sh_type == SHT_PROGBITS
    }

    /// Whether it is a symbol table.
    pub fn is_symbol_table(&self) -> bool
        ensures { result ≡ spec.is_symbol_table self.now }
    {
        self.sh_type == SHT_SYMTAB
    }

    /// Whether it holds names.
    pub fn is_string_table(&self) -> bool
        ensures { result ≡ spec.is_string_table self.now }
    {
        self.sh_type == SHT_STRTAB
    }

    /// Whether it holds relocations with addends of their own.
    pub fn is_with_addends(&self) -> bool
        ensures { result ≡ spec.is_with_addends self.now }
    {
        self.sh_type == SHT_RELA
    }

    /// Whether it holds relocations without addends of their own.
    pub fn is_relocations(&self) -> bool
        ensures { result ≡ spec.is_relocations self.now }
    {
        self.sh_type == SHT_REL
    }

    /// Whether it gets a place in the program.
    pub fn is_placed(&self) -> bool
        ensures { result ≡ spec.is_placed self.now }
    {
        self.sh_flags & SHF_ALLOC != 0 && (self.has_bytes() || self.sh_type == SHT_NOBITS)
    }

    /// Whether it gets a place, and its alignment is neither 0 nor a power of 2 up to 4,096.
    pub fn is_misaligned(&self) -> bool
        ensures { result ≡ spec.is_misaligned self.now }
    {
        self.is_placed() && self.sh_addralign != 0 && 4096 % self.sh_addralign != 0
    }

    /// The offset after its bytes in the file.
    pub fn end(&self) -> u64
        ensures { result ≡ self.now.sh_offset + self.now.sh_size }
    {
        u64::from(self.sh_offset) + u64::from(self.sh_size)
    }

    /// Whether it is zeros, which are not in the file.
    pub fn has_zeros(&self) -> bool
        ensures { result ≡ spec.has_zeros self.now }
    {
        self.sh_type == SHT_NOBITS
    }

    /// Whether it gets a place and is code.
    pub fn is_code(&self) -> bool
        ensures { result ≡ spec.is_code_object_section self.now }
    {
        self.is_placed() && self.sh_flags & SHF_EXECINSTR != 0
    }

    /// Whether it can be written.
    pub fn is_variable(&self) -> bool
        ensures { result ≡ spec.is_variable self.now }
    {
        self.sh_flags & SHF_WRITE != 0
    }
}
